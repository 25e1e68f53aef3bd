// The call `solve_profile_blocked` (document 01, Record 7): the solution of a finished factor into a lent list. Refused with 20, 25, 13 or 27. What
// it answers and leaves is `solve_of` of the crate profile, specs/Finish.antt.
#![tactic(auto)]

ghost use Rattle.std.specs.Prelude.{◌≡◌, length};
ghost use Rattle.profile.specs.Finish.{solve_meaning, solve_of};
ghost use Rattle.solution_vectors.specs.result_places.Places.{result_length_of};
ghost use Rattle.solution_finish.specs.Outcome.{finish_of};

use profile::Solution;
use refusal::Refusal;
use solution_vectors::lent::Workspace;
use solution_vectors::result_places;

// From a finished factor and a list of the right length.
fn of_factor(lent: Workspace, reml: bool, out: &mut [f64]) -> Result<Solution, Refusal>
    requires { length out.old ≡ result_length_of lent.layout }
    ensures { (result ≡ (finish_of lent.entry.heading.now lent.entry.doubles.now reml (result_length_of lent.entry.layout)).answer) × (out.new ≡ (finish_of lent.entry.heading.now lent.entry.doubles.now reml (result_length_of lent.entry.layout)).result) }
{
    triangular_solves::solve_all(lent, out);
    solution_finish::solve_profile_finish(lent, reml, out)
}

// The solution in the list that is lent, and its two scalars. Any numbers and doubles may be lent: 20 where they are no workspace, 25 where the factor is
// not finished, 13 where the list has another length, 27 where a pivot of the fixed effects is not above 0. The workspace is not touched.
pub fn solve_profile_blocked(
    heading: &[u32],
    doubles: &[f64],
    reml: bool,
    out: &mut [f64],
) -> Result<Solution, Refusal>
    ensures { (solve_meaning result ≡ solve_meaning (solve_of heading.now doubles.now reml out.old).answer) × (out.new ≡ (solve_of heading.now doubles.now reml out.old).result) }
{
    let layout = deviance::finished_layout(heading, doubles.len())?;
    if out.len() != result_places::result_length(layout) {
        return Err(Refusal::WrongLength { list: 0 });
    }
    let lent = Workspace {
        layout,
        heading,
        doubles,
    };
    of_factor(lent, reml, out)
}
