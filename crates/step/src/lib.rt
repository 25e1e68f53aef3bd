// The call `step` (document 01, Records 4 and 5): one step S, C or T of an update. Refused with 20, 22, 21, 23, 24 or 26. What it answers and leaves
// is `step_of` of the crate update, specs/Calls.antt.
#![tactic(auto)]

mod apply_step;
mod factor_step;
mod step_check;
pub mod step_result;

ghost use Rattle.std.specs.Prelude.{◌≡◌, true, ◌≤◌, length};
ghost use Rattle.step_order.specs.Steps.{IsStep};
ghost use Rattle.heading_format.specs.Heading.{layout_of, progress_of, valid_heading};
ghost use Rattle.refusal.specs.Numbers.{meaning};
ghost use Rattle.workspace.specs.Answers.{workspace};
ghost use Rattle.update.specs.Names.{step_of_name};
ghost use Rattle.update.specs.Calls.{refused_by, on_pivot, step_of};
ghost use Rattle.heading_format.specs.Fits.{Fits};

use heading::writer;
use refusal::Refusal;
use update::StepName;

// A step that is ready, on a workspace: the moved progress is written into its heading.
pub fn apply_ready(heading: &mut [u32], doubles: &mut [f64], name: StepName) -> Result<(), Refusal>
    requires { Fits (layout_of heading.old) heading.old (length doubles.old) × IsStep (layout_of heading.old).k (step_of_name name) × (1 ≤ (progress_of heading.old).left) }
    ensures { record { answer = result; left = workspace heading.new doubles.new } ≡ on_pivot heading.old doubles.old (refused_by heading.old doubles.old (step_of_name name)) (step_of_name name) }
{
    let layout = heading::layout(heading);
    let progress = heading::progress(heading);
    let m = apply_step::apply(layout, progress, heading, doubles, name);
    writer::write_progress(heading, m.progress);
    m.answer
}

// A step of a workspace: 22, 21, 23, 24; else it is taken.
fn step_valid(heading: &mut [u32], doubles: &mut [f64], name: StepName) -> Result<(), Refusal>
    requires { valid_heading heading.old (length doubles.old) ≡ true }
    ensures { record { answer = result; left = workspace heading.new doubles.new } ≡ step_of heading.old doubles.old (step_of_name name) }
{
    let layout = heading::layout(heading);
    let progress = heading::progress(heading);
    step_check::check(layout.k, progress, name)?;
    apply_ready(heading, doubles, name)
}

// A step (Record 4). Any numbers, doubles and name may be given; refused with 20, 22, 21, 23 or 24 all is left untouched, with 26 the working doubles are
// +0.0 and there is no update.
pub fn step(heading: &mut [u32], doubles: &mut [f64], name: StepName) -> Result<(), Refusal>
    ensures { (meaning result ≡ meaning (step_of heading.old doubles.old (step_of_name name)).answer) × (workspace heading.new doubles.new ≡ (step_of heading.old doubles.old (step_of_name name)).left) }
{
    if !heading_check::is_valid_heading(heading, doubles.len()) {
        return Err(Refusal::NoWorkspace);
    }
    step_valid(heading, doubles, name)
}
