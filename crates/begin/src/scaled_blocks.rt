// Begin on a cross block and on fixed rows (document 01, Record 4): each becomes its loaded block scaled by theta. What begin leaves of every block
// is defined in specs/scaled_blocks/Scaled.antt.
ghost use Rattle.std.specs.Prelude.{◌≡◌, true, ◌≤◌, ◌<◌, length};
ghost use Rattle.layout.specs.Shapes.{theta_length};
ghost use Rattle.heading_format.specs.Heading.{valid_layout};
ghost use Rattle.begin.specs.scaled_blocks.Scaled.{BlockScaled};
ghost use Rattle.workspace.specs.Memory.{sorted_theta};
ghost use Rattle.heading_format.specs.Fits.{Room};

use block_places::{block_sizes, places};
use cross_block::scaling;
use layout::Layout;

// Theta of sorted block j, out of theta in sheet order.
pub fn theta_of(layout: Layout, theta: &[f64], j: u64) -> f64
    requires { (valid_layout layout ≡ true) × (length theta.now ≡ theta_length layout) × (j < layout.k) }
    ensures { result ≡ sorted_theta layout theta.now j }
{
    let sheet = layout.order[j as usize];
    theta[sheet as usize]
}

// Block (i, j) off the diagonal, scaled: a pair times theta of its column block, then of its row block; fixed rows times theta of their column block.
pub fn init_off_diagonal(layout: Layout, doubles: &mut [f64], theta: &[f64], i: u64, j: u64)
    requires { Room layout (length doubles.old) × (length theta.now ≡ theta_length layout) × (j < i) × (i ≤ layout.k) }
    ensures { BlockScaled layout theta.now i j doubles.old doubles.new }
{
    let off = places::working_at(layout, i, j);
    let src = places::loaded_at(layout, i, j);
    let n = block_sizes::size_of(layout, false, i, j) as usize;
    let column = theta_of(layout, theta, j);
    if i == layout.k {
        scaling::scale_once(doubles, off, src, n, column);
        return;
    }
    let row = theta_of(layout, theta, i);
    scaling::scale_twice(doubles, off, src, n, column, row);
}
