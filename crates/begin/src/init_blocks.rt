// Begin's blocks, all of them (document 01, Record 4): diagonals and triangles, cross blocks, fixed rows, the last triangle.
ghost use Rattle.std.specs.Prelude.{◌≡◌, true, ◌+◌, ◌≤◌, ◌<◌, length};
ghost use Rattle.storage.specs.Part.{part, store};
ghost use Rattle.layout.specs.Shapes.{factors, across, pairs, targets, theta_length};
ghost use Rattle.begin.specs.scaled_blocks.Scaled.{BlockScaled, BlocksScaled};
ghost use Rattle.heading_format.specs.Fits.{Room};

use crate::scaled_blocks;
use block_places::{block_kinds, block_sizes, places};
use layout::{FactorKind, Layout};
use re_factor::{diagonal_init, triangle_init};

// The n doubles at src are copied to off.
fn copy(doubles: &mut [f64], off: usize, src: usize, n: usize)
    requires { (off + n ≤ length doubles.old) × (src + n ≤ off) }
    ensures { doubles.new ≡ store off (part src n doubles.old) doubles.old }
{
    doubles.copy_within(src..src + n, off);
}

// Factor j, scaled: (t·t)·a + 1 on its diagonal, 0 off it.
fn init_factor(layout: Layout, doubles: &mut [f64], theta: &[f64], j: u64)
    requires { Room layout (length doubles.old) × (length theta.now ≡ theta_length layout) × (j < layout.k) }
    ensures { BlockScaled layout theta.now j j doubles.old doubles.new }
{
    let b = block_places::block(layout, j, j);
    let src = places::loaded_at(layout, j, j);
    let t = scaled_blocks::theta_of(layout, theta, j);
    match block_kinds::factor_kind(layout, j) {
        FactorKind::Diagonal => diagonal_init::init_diagonal(doubles, b, src, t),
        FactorKind::Packed => triangle_init::init(doubles, b, src, t),
    }
}

// The last triangle: as it was loaded.
fn init_last(layout: Layout, doubles: &mut [f64], theta: &[f64])
    requires { Room layout (length doubles.old) }
    ensures { BlockScaled layout theta.now layout.k layout.k doubles.old doubles.new }
{
    let off = places::working_at(layout, layout.k, layout.k);
    let src = places::loaded_at(layout, layout.k, layout.k);
    let n = block_sizes::size_of(layout, true, layout.k, layout.k) as usize;
    copy(doubles, off, src, n);
}

// All factors, scaled.
fn init_factors(layout: Layout, doubles: &mut [f64], theta: &[f64])
    requires { Room layout (length doubles.old) × (length theta.now ≡ theta_length layout) }
    ensures { BlocksScaled layout theta.now (factors layout.k) doubles.old doubles.new }
{
    let k = layout.k;
    for j in 0..k {
        init_factor(layout, doubles, theta, j);
    }
}

// The blocks of row i left of its factor, scaled.
fn init_row(layout: Layout, doubles: &mut [f64], theta: &[f64], i: u64)
    requires { Room layout (length doubles.old) × (length theta.now ≡ theta_length layout) × (i ≤ layout.k) }
    ensures { BlocksScaled layout theta.now (across i i) doubles.old doubles.new }
{
    for j in 0..i {
        scaled_blocks::init_off_diagonal(layout, doubles, theta, i, j);
    }
}

// All pairs, scaled.
fn init_pairs(layout: Layout, doubles: &mut [f64], theta: &[f64])
    requires { Room layout (length doubles.old) × (length theta.now ≡ theta_length layout) }
    ensures { BlocksScaled layout theta.now (pairs layout.k) doubles.old doubles.new }
{
    let k = layout.k;
    for i in 0..k {
        init_row(layout, doubles, theta, i);
    }
}

// Every working block, scaled; no other double is touched.
pub fn init_blocks(layout: Layout, doubles: &mut [f64], theta: &[f64])
    requires { Room layout (length doubles.old) × (length theta.now ≡ theta_length layout) }
    ensures { BlocksScaled layout theta.now (targets layout.k) doubles.old doubles.new }
{
    init_factors(layout, doubles, theta);
    init_pairs(layout, doubles, theta);
    init_row(layout, doubles, theta, layout.k);
    init_last(layout, doubles, theta);
}
