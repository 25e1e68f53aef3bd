// A vector divided by the pivots of a diagonal block (document 01, Record 7).
ghost use Rattle.std.specs.Prelude.{◌≡◌, ◌+◌, ◌≤◌, length};
ghost use Rattle.storage.specs.Placed.{as_diagonal, Lies};
ghost use Rattle.re_factor.specs.Factor.{divided};

use storage::Block;

// The entries at z of v, each divided by its pivot of the diagonal b of `doubles`.
pub fn divide(v: &mut [f64], z: usize, doubles: &[f64], b: Block)
    requires { (z + b.rows ≤ length v.old) × Lies (length doubles.now) (as_diagonal b) }
    ensures { v.new ≡ divided z b doubles.now v.old }
{
    for i in 0..b.rows {
        v[z + i] = v[z + i] / doubles[b.at + i];
    }
}
