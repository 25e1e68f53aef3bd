// Which sorted block has a row of the sheet (document 01, Record 3: rows keep sheet order, blocks are sorted). Definitions are in specs/sheet_rows/Blocks.antt.
ghost use Rattle.std.specs.Prelude.{◌≡◌, true, ◌&&◌, ltb, leb, ◌+◌, ◌≤◌, ◌<◌};
ghost use Rattle.heading_format.specs.Heading.{valid_layout, sheet_levels};
ghost use Rattle.workspace.specs.Loaded.{row_start};

use layout::Layout;

// Levels of the block that has sheet index i.
fn sheet_levels(layout: Layout, i: u64) -> u64
    requires { valid_layout layout ≡ true }
    ensures { result ≡ sheet_levels layout layout.k i }
{
    let mut m: u64 = 0;
    for s in 0..layout.k as usize {
        if layout.order[s] == i {
            m = layout.m[s];
        }
    }
    m
}

// The first row of sorted block j: the levels of the blocks before it in the sheet.
pub fn first_row(layout: Layout, j: usize) -> u64
    requires { (valid_layout layout ≡ true) × (j < layout.k) }
    ensures { result ≡ row_start layout j }
{
    let before = layout.order[j];
    let mut sum: u64 = 0;
    for i in 0..before {
        sum += sheet_levels(layout, i);
    }
    sum
}

// Whether x is one of the rows of a block.
pub fn within(first: u64, levels: u64, x: u64) -> bool
    requires { (first ≤ 524280) × (levels ≤ 65535) }
    ensures { result ≡ (leb first x && ltb x (first + levels)) }
{
    (first..first + levels).contains(&x)
}
