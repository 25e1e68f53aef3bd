// The call `deviance_from_factor` (document 01, Record 6): the deviance of a finished factor. Refused with 20 or 25. What it answers is
// `deviance_from_factor` of the crate profile, specs/Deviance.antt; the tail by layout, doubles and log determinant is in
// specs/deviance_tail/Tail.antt.
#![tactic(auto)]

pub mod deviance_tail;
pub mod deviance_value;

ghost use Rattle.std.specs.Prelude.{◌≡◌, length, Ok};
ghost use Rattle.heading_format.specs.Heading.{layout_of};
ghost use Rattle.profile.specs.Deviance.{is_finished, of_finished, deviance_meaning, deviance_from_factor};

use heading_format::State;
use layout::Layout;
use profile::Deviance;
use refusal::Refusal;

// Whether an update has ended.
pub fn is_finished(s: State) -> bool
    ensures { result ≡ is_finished s }
{
    matches!(s, State::Finished)
}

// The layout of a workspace of so many doubles whose factor is finished: 20, 25.
pub fn finished_layout(heading: &[u32], doubles: usize) -> Result<Layout, Refusal>
    ensures { result ≡ of_finished heading.now doubles (Ok (layout_of heading.now)) }
{
    if !heading_check::is_valid_heading(heading, doubles) {
        return Err(Refusal::NoWorkspace);
    }
    let progress = heading::progress(heading);
    if !is_finished(progress.state) {
        return Err(Refusal::FactorUnfinished);
    }
    Ok(heading::layout(heading))
}

// The deviance of the factor as it stands. Any numbers and doubles may be lent: 20 where they are no workspace, 25 where the factor is not finished.
pub fn deviance_from_factor(
    heading: &[u32],
    doubles: &[f64],
    reml: bool,
) -> Result<Deviance, Refusal>
    ensures { deviance_meaning result ≡ deviance_meaning (deviance_from_factor heading.now doubles.now reml) }
{
    let layout = finished_layout(heading, doubles.len())?;
    let logdet = deviance_tail::log_determinant(layout, doubles);
    Ok(deviance_tail::tail(layout, doubles, logdet, reml))
}
