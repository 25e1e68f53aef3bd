// A cross block times a vector, subtracted from another (document 01, Record 7; the Rust's `cross_matvec_sub`, `cross_matvec_t_sub`). The solve's
// vectors lie in the list v, the block in `doubles`: the target's entries are the rule's, every other double stays. At the root a dense block, in
// matvec_t its transpose, in the other modules a sparse block. A dense block has at most 316 rows.
#![tactic(auto)]

pub mod column_sums;
pub mod matvec_t;
pub mod sparse_matvec;
pub mod sparse_matvec_t;

ghost use Rattle.std.specs.Prelude.{◌≡◌, ◌≤◌, length};
ghost use Rattle.storage.specs.Placed.{Lies, as_columns};
ghost use Rattle.cross_matvec.specs.Products.{Sides, subtracted_product};

use block_runs::{axpy_products, runs};
use storage::Block;

// The sums of the rows, side by side in acc, then the entries at `to`.
fn subtract_sums(v: &mut [f64], acc: &mut [f64], to: usize, z: usize, doubles: &[f64], a: Block)
    requires { (a.rows ≤ length acc.old) × Sides (length v.old) to z a × Lies (length doubles.now) (as_columns a) }
    ensures { v.new ≡ subtracted_product to z a doubles.now v.old }
{
    let n = a.rows;
    runs::clear(acc, n);
    axpy_products::add_products(acc, n, doubles, a.at, n, v, z, 1, 0, a.cols);
    runs::subtract(v, to, to, n, acc);
}

// Going forward: the vector at `to` less a dense block times the vector at z.
pub fn matvec_sub(v: &mut [f64], to: usize, z: usize, doubles: &[f64], a: Block)
    requires { (a.rows ≤ 316) × Sides (length v.old) to z a × Lies (length doubles.now) (as_columns a) }
    ensures { v.new ≡ subtracted_product to z a doubles.now v.old }
{
    let mut acc = [0.0; 316];
    subtract_sums(v, &mut acc, to, z, doubles, a);
}
