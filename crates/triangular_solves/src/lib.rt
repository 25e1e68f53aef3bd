// The solves with the factor, in place (document 01, Record 7; the Rust's `forward_solve_ld`, `backward_solve_ld`, `backsolve_a_inv`). At the root w
// of every fixed row: its v is put in the place of w and solved there.
#![tactic(auto)]

mod backsolve;
mod backward_solve;
mod block_solves;
mod cross_terms;
mod forward_solve;
pub mod scaled_row;

ghost use Rattle.std.specs.Prelude.{◌≡◌, ◌≤◌, length};
ghost use Rattle.solution_vectors.specs.result_places.Places.{result_length_of, Solved};
ghost use Rattle.layout.specs.Shapes.{last_rows};

use solution_vectors::lent::Workspace;
use solution_vectors::result_places;

// The rows from `from` on, before `end`; those before `from` are solved.
fn solve_rows(lent: Workspace, v: &mut [f64], from: usize, end: usize)
    requires { (from ≤ end) × (end ≤ last_rows lent.layout) × (length v.old ≡ result_length_of lent.layout) × Solved lent.heading.now lent.doubles.now lent.layout from v.old }
    ensures { Solved lent.entry.heading.now lent.entry.doubles.now lent.entry.layout end v.new }
{
    for r in from..end {
        let at = result_places::w_at(lent.layout, r);
        scaled_row::scale_row(lent, v, at, r);
        backsolve::backsolve_a_inv(lent, v, at);
    }
}

// Rows 0 to p - 1, then the response's: called twice, the solves are not compiled into the caller, where registers are few.
pub fn solve_all(lent: Workspace, v: &mut [f64])
    requires { length v.old ≡ result_length_of lent.layout }
    ensures { Solved lent.entry.heading.now lent.entry.doubles.now lent.entry.layout (last_rows lent.entry.layout) v.new }
{
    let p = lent.layout.p as usize;
    solve_rows(lent, v, 0, p);
    solve_rows(lent, v, p, p + 1);
}
