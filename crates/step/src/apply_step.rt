// A step that is ready, taken: layout and progress go in by value and the step hands the moved progress back (document 01, Records 4 and 5).
ghost use Rattle.std.specs.Prelude.{◌≡◌, ◌≤◌, length};
ghost use Rattle.step_order.specs.Steps.{IsStep, S, T};
ghost use Rattle.heading_format.specs.Heading.{layout_of, progress_of};
ghost use Rattle.update.specs.Names.{step_of_name};
ghost use Rattle.heading_format.specs.Fits.{Fits};
ghost use Rattle.step.specs.step_result.Applied.{Applied};

use crate::step_result::StepResult;
use crate::{factor_step, step_check};
use heading_format::Progress;
use layout::Layout;
use refusal::Refusal;
use step_blocks::{solve_block, subtract_block};
use update::StepName;

// S(i, j, x): its own block, and one step more.
fn apply_subtract(
    layout: Layout,
    progress: Progress,
    heading: &[u32],
    doubles: &mut [f64],
    i: u64,
    j: u64,
    x: u64,
) -> StepResult
    requires { Fits layout heading.now (length doubles.old) × IsStep layout.k (S i j x) × (1 ≤ progress.left) }
    ensures { Applied layout progress heading.now doubles.old doubles.new (S i j x) result }
{
    subtract_block::subtract(layout, heading, doubles, i, j, x);
    let place = step_check::target_place(i, j);
    StepResult {
        answer: Ok(()),
        progress: progress.mark(place, x + 1),
    }
}

// T(i, j): as S.
fn apply_solve(
    layout: Layout,
    progress: Progress,
    heading: &[u32],
    doubles: &mut [f64],
    i: u64,
    j: u64,
) -> StepResult
    requires { Fits layout heading.now (length doubles.old) × IsStep layout.k (T i j) × (1 ≤ progress.left) }
    ensures { Applied layout progress heading.now doubles.old doubles.new (T i j) result }
{
    solve_block::solve(layout, heading, doubles, i, j);
    let place = step_check::target_place(i, j);
    StepResult {
        answer: Ok(()),
        progress: progress.mark(place, j + 1),
    }
}

// A step that is ready: layout and progress go in by value, and it hands the moved progress back.
pub fn apply(
    layout: Layout,
    progress: Progress,
    heading: &[u32],
    doubles: &mut [f64],
    name: StepName,
) -> StepResult
    requires { Fits layout heading.now (length doubles.old) × (progress ≡ progress_of heading.now) × IsStep layout.k (step_of_name name) × (1 ≤ progress.left) }
    ensures { Applied layout progress heading.now doubles.old doubles.new (step_of_name name) result }
{
    match name {
        StepName::S(i, j, x) => apply_subtract(layout, progress, heading, doubles, i, j, x),
        StepName::C(j) => factor_step::apply_factor(layout, progress, heading, doubles, j),
        StepName::T(i, j) => apply_solve(layout, progress, heading, doubles, i, j),
    }
}
