// Begin and the Rust's order to its end or its refused pivot (document 01, Record 5).
ghost use Rattle.std.specs.Prelude.{◌≡◌, ◌≤◌, Ok, length};
ghost use Rattle.step_order.specs.Steps.{rust_order};
ghost use Rattle.heading_format.specs.Heading.{layout_of};
ghost use Rattle.heading_format.specs.Parts.{heading_length};
ghost use Rattle.heading_format.specs.Fits.{Room};
ghost use Rattle.workspace.specs.Answers.{workspace};
ghost use Rattle.profile_deviance.specs.full_update.Updating.{factored, update_of};
ghost use Rattle.profile_deviance.specs.ready_step.ReadyInTurn.{ReadyInTurn};

use crate::rust_order;
use deviance::deviance_tail;
use refusal::Refusal;

// What an update comes to that is begun: the log determinant, or the refused pivot's block and row.
#[derive(Clone, Copy)]
pub enum Updated {
    Value(f64),
    Pivot(u64, u64),
}

// The Rust's order on a workspace that is begun. A refused pivot is the one refusal that a ready step has.
fn factor(heading: &mut [u32], doubles: &mut [f64]) -> Updated
    requires { (heading_length ≤ length heading.old) × Room (layout_of heading.old) (length doubles.old) × ReadyInTurn (workspace heading.old doubles.old) (rust_order (layout_of heading.old).k) }
    ensures { record { answer = Ok result; left = workspace heading.new doubles.new } ≡ factored (workspace heading.old doubles.old) }
{
    let layout = heading::layout(heading);
    match rust_order::run(heading, doubles, layout.k) {
        Ok(()) => Updated::Value(deviance_tail::log_determinant(layout, doubles)),
        Err(refusal) => {
            let pivot = refusal.numbers();
            Updated::Pivot(pivot.first, pivot.second)
        }
    }
}

// Begin, and the Rust's order; or begin's refusal.
pub fn update(heading: &mut [u32], doubles: &mut [f64], theta: &[f64]) -> Result<Updated, Refusal>
    ensures { record { answer = result; left = workspace heading.new doubles.new } ≡ update_of heading.old doubles.old theta.now }
{
    begin::begin(heading, doubles, theta)?;
    Ok(factor(heading, doubles))
}
