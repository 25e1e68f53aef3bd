// L z = v, block by block (document 01, Record 7; the Rust's `forward_solve_ld`), in place: the vector lies in v from `from` on in sheet order.
ghost use Rattle.std.specs.Prelude.{◌≡◌, ◌+◌, ◌≤◌, ◌<◌, length};
ghost use Rattle.profile.specs.Solves.{forward_solved};
ghost use Rattle.solution_vectors.specs.Vectors.{blocks_at, turned_forward, with_vector};

use crate::{block_solves, cross_terms};
use solution_vectors::lent::Workspace;

// Block i: less its cross blocks times the blocks before it, in turn, then solved with its factor.
fn forward_block(lent: Workspace, v: &mut [f64], from: usize, i: u64)
    requires { (i < lent.layout.k) × (from + lent.layout.q ≤ length v.old) }
    ensures { v.new ≡ turned_forward lent.entry.heading.now lent.entry.doubles.now lent.entry.layout from i v.old }
{
    for j in 0..i {
        cross_terms::subtract_forward(lent, v, from, i, j);
    }
    block_solves::forward_in(lent, v, from, i);
}

// All blocks in turn.
pub fn forward_solve_ld(lent: Workspace, v: &mut [f64], from: usize)
    requires { from + lent.layout.q ≤ length v.old }
    ensures { v.new ≡ with_vector lent.entry.layout from (forward_solved lent.entry.heading.now lent.entry.doubles.now (blocks_at lent.entry.layout from v.old) lent.entry.layout.k) v.old }
{
    for i in 0..lent.layout.k {
        forward_block(lent, v, from, i);
    }
}
