// w = A⁻¹ v (document 01, Record 7; the Rust's `backsolve_a_inv`), in place.
ghost use Rattle.std.specs.Prelude.{◌≡◌, ◌+◌, ◌≤◌, length};
ghost use Rattle.profile.specs.Solves.{solved_for};
ghost use Rattle.solution_vectors.specs.Vectors.{blocks_at, with_vector};

use crate::{backward_solve, forward_solve};
use solution_vectors::lent::Workspace;

// Forward, then backward.
pub fn backsolve_a_inv(lent: Workspace, v: &mut [f64], from: usize)
    requires { from + lent.layout.q ≤ length v.old }
    ensures { v.new ≡ with_vector lent.entry.layout from (solved_for lent.entry.heading.now lent.entry.doubles.now (blocks_at lent.entry.layout from v.old)) v.old }
{
    forward_solve::forward_solve_ld(lent, v, from);
    backward_solve::backward_solve_ld(lent, v, from);
}
