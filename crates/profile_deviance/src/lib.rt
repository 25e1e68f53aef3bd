// The call `profile_deviance` (document 01, Record 6): begin, the steps in the Rust's order, and the deviance of the factor. Refused with 20, 13 or
// 14; a refused pivot is its second answer. What it answers and leaves is `profile_of` of the crate profile, specs/Deviance.antt; what the update in
// it comes to, in specs/full_update/Updating.antt.
#![tactic(auto)]

pub mod full_update;
pub mod ready_step;
pub mod rust_order;

ghost use Rattle.std.specs.Prelude.{◌≡◌, false};
ghost use Rattle.workspace.specs.Answers.{workspace};
ghost use Rattle.profile.specs.Deviance.{deviance_meaning, profile_of};
ghost use Rattle.profile_deviance.specs.full_update.Updating.{is_value, Without};

use deviance::deviance_tail;
use full_update::Updated;
use profile::Deviance;
use refusal::Refusal;

// The deviance of an update that has no log determinant. The first arm is never reached.
fn without_value(u: Updated) -> Deviance
    requires { is_value u ≡ false }
    ensures { Without u result }
{
    match u {
        Updated::Value(x) => Deviance::Value(x),
        Updated::Pivot(block, row) => Deviance::Pivot(block, row),
    }
}

// Begin with theta, the steps, and the deviance (Record 6). Any numbers, doubles and theta may be lent. 20, 13 (list 0) and 14 (list 0 and the index)
// leave all untouched; a refused pivot leaves the working doubles +0.0 and progress none.
pub fn profile_deviance(
    heading: &mut [u32],
    doubles: &mut [f64],
    theta: &[f64],
    reml: bool,
) -> Result<Deviance, Refusal>
    ensures { (deviance_meaning result ≡ deviance_meaning (profile_of heading.old doubles.old theta.now reml).answer) × (workspace heading.new doubles.new ≡ (profile_of heading.old doubles.old theta.now reml).left) }
{
    let u = full_update::update(heading, doubles, theta)?;
    let Updated::Value(logdet) = u else {
        return Ok(without_value(u));
    };
    Ok(deviance_tail::tail(heading::layout(heading), doubles, logdet, reml))
}
