// One step of the Rust's order (document 01, Record 5), which is ready when its turn comes.
ghost use Rattle.std.specs.Prelude.{◌∷◌, [], ◌≡◌, ◌-◌};
ghost use Rattle.workspace.specs.Answers.{workspace};
ghost use Rattle.update.specs.Names.{step_of_name};
ghost use Rattle.profile_deviance.specs.ready_step.ReadyInTurn.{ReadyInTurn, Ran};

use refusal::Refusal;
use update::StepName;

// The step whose turn it is.
pub fn apply(heading: &mut [u32], doubles: &mut [f64], name: StepName) -> Result<(), Refusal>
    requires { ReadyInTurn (workspace heading.old doubles.old) (step_of_name name ∷ []) }
    ensures { Ran (workspace heading.old doubles.old) (step_of_name name ∷ []) (record { answer = result; left = workspace heading.new doubles.new }) }
{
    step::apply_ready(heading, doubles, name)
}
