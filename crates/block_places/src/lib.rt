// Where the blocks of a layout lie among the doubles (document 01, Record 2): their kinds and sizes, their first places, each working block as a
// value, and the way from a row of the sheet to its block. The places are defined in the crate layout, specs/Shapes.antt.
#![tactic(auto)]

pub mod block_kinds;
pub mod block_sizes;
pub mod places;
pub mod row_map;
pub mod sheet_rows;

ghost use Rattle.std.specs.Prelude.{◌≡◌, true, ◌≤◌};
ghost use Rattle.heading_format.specs.Heading.{valid_layout};
ghost use Rattle.block_places.specs.Working.{working};

use layout::Layout;
use storage::Block;

// Working block (i, j).
pub fn block(layout: Layout, i: u64, j: u64) -> Block
    requires { (valid_layout layout ≡ true) × (j ≤ i) × (i ≤ layout.k) }
    ensures { result ≡ working layout i j }
{
    Block {
        at: places::working_at(layout, i, j),
        rows: block_kinds::rows_of(layout, i),
        cols: block_kinds::rows_of(layout, j),
    }
}
