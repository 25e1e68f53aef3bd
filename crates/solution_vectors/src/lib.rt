// A vector of the q rows in sheet order, taken apart into its sorted blocks (document 01, Record 7), and the places of the result list:
// specs/Vectors.antt says what the solves make of it, proofs/Vectors.antt that blocks stored one by one are the vector.
#![tactic(auto)]

pub mod lent;
pub mod result_places;
pub mod solve_laws;

ghost use Rattle.std.specs.Prelude.{◌≡◌, true, ◌+◌, ◌≤◌, ◌<◌, length};
ghost use Rattle.heading_format.specs.Heading.{valid_layout};
ghost use Rattle.workspace.specs.Loaded.{row_start};

use block_places::sheet_rows;
use layout::Layout;

// Where sorted block j of the vector starts that lies in v from `from` on.
pub fn block_start(layout: Layout, v: &[f64], from: usize, j: u64) -> usize
    requires { (valid_layout layout ≡ true) × (j < layout.k) × (from + layout.q ≤ length v.now) }
    ensures { result ≡ from + row_start layout j }
{
    from + sheet_rows::first_row(layout, j as usize) as usize
}
