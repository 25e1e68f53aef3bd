// The steps of an update in the Rust's order (document 01, Record 5), to its end or to the refused pivot. Every step is ready when its turn comes, so
// none is asked for its forerunners, and the heading is not tested again. What a run comes to is defined in
// specs/ready_step/ReadyInTurn.antt.
ghost use Rattle.std.specs.Prelude.{◌∷◌, ◌++◌, [], suc, ◌-◌, ◌≤◌};
ghost use Rattle.step_order.specs.Steps.{T, each, subtractions, column_steps, rust_order};
ghost use Rattle.workspace.specs.Answers.{workspace};
ghost use Rattle.profile_deviance.specs.ready_step.ReadyInTurn.{ReadyInTurn, Ran};

use crate::ready_step;
use refusal::Refusal;
use update::StepName;

// All S(i,j,x), x rising.
fn subtract_all(heading: &mut [u32], doubles: &mut [f64], i: u64, j: u64) -> Result<(), Refusal>
    requires { (j ≤ 8) × ReadyInTurn (workspace heading.old doubles.old) (subtractions i j) }
    ensures { Ran (workspace heading.old doubles.old) (subtractions i j) (record { answer = result; left = workspace heading.new doubles.new }) }
{
    for x in 0..j {
        ready_step::apply(heading, doubles, StepName::S(i, j, x))?;
    }
    Ok(())
}

// The steps of target (i, j) below the diagonal.
fn target(heading: &mut [u32], doubles: &mut [f64], i: u64, j: u64) -> Result<(), Refusal>
    requires { (j ≤ 8) × ReadyInTurn (workspace heading.old doubles.old) (subtractions i j ++ (T i j ∷ [])) }
    ensures { Ran (workspace heading.old doubles.old) (subtractions i j ++ (T i j ∷ [])) (record { answer = result; left = workspace heading.new doubles.new }) }
{
    subtract_all(heading, doubles, i, j)?;
    ready_step::apply(heading, doubles, StepName::T(i, j))
}

// The targets of column j below the diagonal.
fn below(heading: &mut [u32], doubles: &mut [f64], j: u64, k: u64) -> Result<(), Refusal>
    requires { (j ≤ k) × (k ≤ 8) × ReadyInTurn (workspace heading.old doubles.old) (each (λ i. subtractions i j ++ (T i j ∷ [])) (suc j) (k - j)) }
    ensures { Ran (workspace heading.old doubles.old) (each (λ i. subtractions i j ++ (T i j ∷ [])) (suc j) (k - j)) (record { answer = result; left = workspace heading.new doubles.new }) }
{
    for i in j + 1..k + 1 {
        target(heading, doubles, i, j)?;
    }
    Ok(())
}

// Column j: the diagonal target, then those below it.
fn column(heading: &mut [u32], doubles: &mut [f64], j: u64, k: u64) -> Result<(), Refusal>
    requires { (j ≤ k) × (k ≤ 8) × ReadyInTurn (workspace heading.old doubles.old) (column_steps k j) }
    ensures { Ran (workspace heading.old doubles.old) (column_steps k j) (record { answer = result; left = workspace heading.new doubles.new }) }
{
    subtract_all(heading, doubles, j, j)?;
    ready_step::apply(heading, doubles, StepName::C(j))?;
    below(heading, doubles, j, k)
}

// All columns.
pub fn run(heading: &mut [u32], doubles: &mut [f64], k: u64) -> Result<(), Refusal>
    requires { (k ≤ 8) × ReadyInTurn (workspace heading.old doubles.old) (rust_order k) }
    ensures { Ran (workspace heading.old doubles.old) (rust_order k) (record { answer = result; left = workspace heading.new doubles.new }) }
{
    for j in 0..k + 1 {
        column(heading, doubles, j, k)?;
    }
    Ok(())
}
