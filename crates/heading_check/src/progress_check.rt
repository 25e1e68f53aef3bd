// Whether the progress of a heading is one that an update can have (document 01, Record 5): no stage past its target's last step, the steps left
// counted right, no step done before its forerunners, and the state as the steps left say. What is valid is defined in the crate
// heading_format, specs/Heading.antt.
ghost use Rattle.std.specs.Prelude.{◌≡◌, ◌-◌, ◌<◌, ◌≤◌, length};
ghost use Rattle.heading_format.specs.Heading.{valid_state, valid_progress, progress_of};
ghost use Rattle.heading_format.specs.Parts.{heading_length};

use crate::{forerunner_check, stage_check};
use heading::idle_progress;
use heading_format::State;

// Whether a state has this many steps left of all.
fn is_valid_state(s: State, left: u64, all: u64) -> bool
    ensures { result ≡ valid_state s left all }
{
    match s {
        State::Idle => left == all,
        State::UnderWay => 0 < left,
        State::Finished => left == 0,
    }
}

// Whether the progress that a heading of k blocks tells is valid.
pub fn is_valid_progress(heading: &[u32], k: u64) -> bool
    requires { (heading_length ≤ length heading.now) × (k ≤ 8) }
    ensures { result ≡ valid_progress k (progress_of heading.now) }
{
    if stage_check::is_bounded(heading, k) {
        let w = forerunner_check::walk_all(heading, k);
        let progress = heading::progress(heading);
        let counted = progress.left == w.left;
        let state = progress.state;
        return counted
            & w.valid
            & is_valid_state(state, progress.left, idle_progress::step_count(k));
    }
    false
}
