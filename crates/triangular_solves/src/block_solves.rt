// A block of the vector solved with its factor (document 01, Record 7; the Rust's `forward_solve_block`, `backward_solve_block`), at the places of a
// layout: substitution with a triangle, division by a diagonal. What is left is defined in the crate solution_vectors.
ghost use Rattle.std.specs.Prelude.{◌≡◌, ◌+◌, ◌≤◌, ◌<◌, length};
ghost use Rattle.solution_vectors.specs.Vectors.{solved_forward_in, solved_backward_in};

use block_places::{block_kinds, sheet_rows};
use layout::{FactorKind, Layout};
use re_factor::{block_divide, block_solve};
use solution_vectors::lent::Workspace;

// Going forward.
pub fn forward_in(lent: Workspace, v: &mut [f64], from: usize, i: u64)
    requires { (i < lent.layout.k) × (from + lent.layout.q ≤ length v.old) }
    ensures { v.new ≡ solved_forward_in lent.entry.heading.now lent.entry.doubles.now lent.entry.layout from i v.old }
{
    let z = from + sheet_rows::first_row(lent.layout, i as usize) as usize;
    let b = block_places::block(lent.layout, i, i);
    match block_kinds::factor_kind(lent.layout, i) {
        FactorKind::Diagonal => block_divide::divide(v, z, lent.doubles, b),
        FactorKind::Packed => block_solve::forward(v, z, lent.doubles, b),
    }
}

// Going backward.
pub fn backward_in(lent: Workspace, v: &mut [f64], from: usize, i: u64)
    requires { (i < lent.layout.k) × (from + lent.layout.q ≤ length v.old) }
    ensures { v.new ≡ solved_backward_in lent.entry.heading.now lent.entry.doubles.now lent.entry.layout from i v.old }
{
    let z = from + sheet_rows::first_row(lent.layout, i as usize) as usize;
    let b = block_places::block(lent.layout, i, i);
    match block_kinds::factor_kind(lent.layout, i) {
        FactorKind::Diagonal => block_divide::divide(v, z, lent.doubles, b),
        FactorKind::Packed => block_solve::backward(v, z, lent.doubles, b),
    }
}
