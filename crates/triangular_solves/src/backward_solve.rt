// L' w = z, block by block from the last (document 01, Record 7; the Rust's `backward_solve_ld`), in place: the vector lies in v from `from` on in
// sheet order.
ghost use Rattle.std.specs.Prelude.{◌≡◌, ◌+◌, ◌≤◌, ◌<◌, length};
ghost use Rattle.profile.specs.Solves.{backward_solved};
ghost use Rattle.solution_vectors.specs.Vectors.{blocks_at, turned_backward, with_vector};

use crate::{block_solves, cross_terms};
use solution_vectors::lent::Workspace;

// Block i: less the transposes of the cross blocks below it times the blocks behind it, in turn, then solved with its factor.
fn backward_block(lent: Workspace, v: &mut [f64], from: usize, i: u64)
    requires { (i < lent.layout.k) × (from + lent.layout.q ≤ length v.old) }
    ensures { v.new ≡ turned_backward lent.entry.heading.now lent.entry.doubles.now lent.entry.layout from i v.old }
{
    for j in i + 1..lent.layout.k {
        cross_terms::subtract_backward(lent, v, from, j, i);
    }
    block_solves::backward_in(lent, v, from, i);
}

// All blocks, the last first.
pub fn backward_solve_ld(lent: Workspace, v: &mut [f64], from: usize)
    requires { from + lent.layout.q ≤ length v.old }
    ensures { v.new ≡ with_vector lent.entry.layout from (backward_solved lent.entry.heading.now lent.entry.doubles.now (blocks_at lent.entry.layout from v.old) lent.entry.layout.k) v.old }
{
    for i in (0..lent.layout.k).rev() {
        backward_block(lent, v, from, i);
    }
}
