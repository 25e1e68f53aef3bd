// S of a dense block and of the last triangle (document 01, Record 4), at the places of a layout.
ghost use Rattle.std.specs.Prelude.{◌≡◌, false, ◌≤◌, ◌<◌, length};
ghost use Rattle.schur.specs.Schur.{subtracted_dense, subtracted_last};
ghost use Rattle.block_places.specs.Working.{working};
ghost use Rattle.heading_format.specs.Fits.{Room};

use layout::Layout;
use schur::{last_triangle, schur_dense};

// S(k, k, x): the last triangle less the fixed rows of factor x times themselves.
pub fn subtract_last_block(layout: Layout, doubles: &mut [f64], x: u64)
    requires { Room layout (length doubles.old) × (x < layout.k) }
    ensures { doubles.new ≡ subtracted_last (working layout layout.k layout.k) (working layout layout.k x) doubles.old }
{
    let t = block_places::block(layout, layout.k, layout.k);
    let a = block_places::block(layout, layout.k, x);
    last_triangle::subtract_last(doubles, t, a);
}

// S(i, j, x) of a dense target: less block (i, x) times block (j, x).
pub fn subtract_dense_block(layout: Layout, doubles: &mut [f64], i: u64, j: u64, x: u64)
    requires { Room layout (length doubles.old) × (x < j) × (j < i) × (i ≤ layout.k) × (layout.sparse ≡ false) }
    ensures { doubles.new ≡ subtracted_dense (working layout i j) (working layout i x) (working layout j x) doubles.old }
{
    let t = block_places::block(layout, i, j);
    let a = block_places::block(layout, i, x);
    let b = block_places::block(layout, j, x);
    schur_dense::subtract_dense(doubles, t, a, b);
}
