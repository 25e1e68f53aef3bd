// The finish of a solution (document 01, Record 7; the Rust's `solve_profile_finish`): from w of every row to the result list and the two scalars, or
// refusal 27.
#![tactic(auto)]

mod b_vector;
mod beta;
mod fixed_rows;
mod l_x;
mod result_laws;
mod result_parts;
mod u_vector;
mod xtx_minus_vtw;

ghost use Rattle.std.specs.Prelude.{◌≡◌, ◌+◌, length, replicate, Err};
ghost use Rattle.rules.specs.Arithmetic.{ieee};
ghost use Rattle.rules.specs.Sums.{dot};
ghost use Rattle.rules.specs.Cholesky.{at};
ghost use Rattle.refusal.specs.Numbers.{refusal};
ghost use Rattle.profile.specs.Finish.{cross_product, v_of, w_of, solution_of, result_list};
ghost use Rattle.solution_vectors.specs.result_places.Places.{result_length_of, Solved};
ghost use Rattle.solution_finish.specs.result_laws.Ready.{Ready};
ghost use Rattle.solution_finish.specs.Outcome.{finish_of};
ghost use Rattle.layout.specs.Shapes.{last_rows, response_row};

use profile::Solution;
use refusal::Refusal;
use solution_vectors::lent::Workspace;
use solution_vectors::result_places;

// The pivot of row r is not above 0: the whole list is +0.0.
fn refuse(v: &mut [f64], r: usize) -> Result<Solution, Refusal>
    ensures { (result ≡ Err (refusal 27 r 0)) × (v.new ≡ replicate (length v.old) ieee.zero) }
{
    v.fill(0.0);
    Err(Refusal::FixedPivotRefused { row: r as u64 })
}

// The factor is there: the other parts, and the scalars. `rest` is y'y less v of y times w of y.
fn accept(lent: Workspace, reml: bool, v: &mut [f64], rest: f64) -> Solution
    requires ready { Ready lent.heading.now lent.doubles.now lent.layout v.old }
    requires rest_value { rest ≡ ieee.minus (cross_product lent.heading.now lent.doubles.now (response_row lent.layout) (response_row lent.layout)) (dot ieee (at ieee (v_of lent.heading.now lent.doubles.now (response_row lent.layout))) (at ieee (w_of lent.heading.now lent.doubles.now (response_row lent.layout))) lent.layout.q) }
    ensures { (result ≡ solution_of lent.entry.heading.now lent.entry.doubles.now reml) × (v.new ≡ result_list lent.entry.heading.now lent.entry.doubles.now) }
{
    let r = result_parts::make_parts(lent, v);
    result_parts::scalars(lent, v, reml, rest - r)
}

// From w of every row, in their places, to the result list.
pub fn solve_profile_finish(lent: Workspace, reml: bool, v: &mut [f64]) -> Result<Solution, Refusal>
    requires long { length v.old ≡ result_length_of lent.layout }
    requires solved { Solved lent.heading.now lent.doubles.now lent.layout (last_rows lent.layout) v.old }
    ensures { (result ≡ (finish_of lent.entry.heading.now lent.entry.doubles.now reml (result_length_of lent.entry.layout)).answer) × (v.new ≡ (finish_of lent.entry.heading.now lent.entry.doubles.now reml (result_length_of lent.entry.layout)).result) }
{
    let rest = xtx_minus_vtw::subtract_products(lent, v);
    let factor = result_places::l_x_at(lent.layout);
    match l_x::chol_fixed(v, factor, lent.layout.p as usize) {
        Ok(()) => Ok(accept(lent, reml, v, rest)),
        Err(refused) => refuse(v, refused.row),
    }
}
