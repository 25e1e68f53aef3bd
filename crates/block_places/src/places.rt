// Where each block of a workspace lies among its doubles (document 01, Records 2 to 4), and where theta and the logarithms' sum stand. The
// definitions are in the crate layout, specs/Shapes.antt.
ghost use Rattle.std.specs.Prelude.{◌≡◌, true, false, ◌≤◌};
ghost use Rattle.layout.specs.Shapes.{loaded_at, theta_at, theta_length, working_at, sum_at, working_end, doubles_needed};
ghost use Rattle.heading_format.specs.Heading.{valid_layout};

use crate::block_sizes;
use layout::Layout;

// Where loaded block (i, j) starts.
pub fn loaded_at(layout: Layout, i: u64, j: u64) -> usize
    requires { (valid_layout layout ≡ true) × (j ≤ i) × (i ≤ layout.k) }
    ensures { result ≡ loaded_at layout i j }
{
    block_sizes::cells_before(layout, true, i, j) as usize
}

// Where theta starts: right behind the loaded numbers.
pub fn theta_at(layout: Layout) -> usize
    requires { valid_layout layout ≡ true }
    ensures { result ≡ theta_at layout }
{
    block_sizes::all_cells(layout, true) as usize
}

// How many numbers theta has.
pub fn theta_length(layout: Layout) -> usize
    ensures { result ≡ theta_length layout }
{
    layout.k as usize
}

// Where working block (i, j) starts.
pub fn working_at(layout: Layout, i: u64, j: u64) -> usize
    requires { (valid_layout layout ≡ true) × (j ≤ i) × (i ≤ layout.k) }
    ensures { result ≡ working_at layout i j }
{
    theta_at(layout)
        + theta_length(layout)
        + block_sizes::cells_before(layout, false, i, j) as usize
}

// Where the logarithms' sum stands, the last of the working doubles.
pub fn sum_at(layout: Layout) -> usize
    requires { valid_layout layout ≡ true }
    ensures { result ≡ sum_at layout }
{
    theta_at(layout) + theta_length(layout) + block_sizes::all_cells(layout, false) as usize
}

// The end of the working doubles.
pub fn working_end(layout: Layout) -> usize
    requires { valid_layout layout ≡ true }
    ensures { result ≡ working_end layout }
{
    sum_at(layout) + 1
}

// How many doubles a workspace has.
pub fn doubles_needed(layout: Layout) -> usize
    requires { valid_layout layout ≡ true }
    ensures { result ≡ doubles_needed layout }
{
    working_end(layout)
}
