// A vector solved with the factor of one block (document 01, Record 7; the Rust's `forward_solve_block`, `backward_solve_block`).
ghost use Rattle.std.specs.Prelude.{◌≡◌, ◌+◌, ◌≤◌, length};
ghost use Rattle.storage.specs.Placed.{as_triangle, Lies};
ghost use Rattle.re_factor.specs.Factor.{solved_forward, solved_backward};

use re_lower::{back_substitution, substitution, triangle_cells};
use storage::Block;

// Forward substitution of the entries at z of v with the packed factor b of `doubles`.
pub fn forward(v: &mut [f64], z: usize, doubles: &[f64], b: Block)
    requires { (b.rows ≤ 316) × (z + b.rows ≤ length v.old) × Lies (length doubles.now) (as_triangle b) }
    ensures { v.new ≡ solved_forward z b doubles.now v.old }
{
    let last = z + b.rows;
    let at = b.at;
    let end = at + triangle_cells::row_start(b.rows);
    substitution::solve_row(&mut v[z..last], &doubles[at..end], b.rows);
}

// Backward substitution of them.
pub fn backward(v: &mut [f64], z: usize, doubles: &[f64], b: Block)
    requires { (b.rows ≤ 316) × (z + b.rows ≤ length v.old) × Lies (length doubles.now) (as_triangle b) }
    ensures { v.new ≡ solved_backward z b doubles.now v.old }
{
    let last = z + b.rows;
    let at = b.at;
    let end = at + triangle_cells::row_start(b.rows);
    back_substitution::backward(&mut v[z..last], &doubles[at..end], b.rows);
}
