// A step's name against the progress of an update (document 01, Records 4 and 5; refusals 22, 21, 23 and 24): whether there is such a step, whether
// it is done, whether its forerunners are, and which refusal comes first. Any numbers may be asked for.
ghost use Rattle.std.specs.Prelude.{◌≡◌, ◌+◌, ◌≤◌, ◌<◌};
ghost use Rattle.storage.specs.Runs.{start, triangle};
ghost use Rattle.step_order.specs.Steps.{IsStep, is_step, forerunners};
ghost use Rattle.step_order.specs.Progress.{all, done};
ghost use Rattle.heading_format.specs.Heading.{stage_of};
ghost use Rattle.update.specs.Names.{step_of_name};
ghost use Rattle.step.specs.step_check.Faults.{name_fault, fault_of};
ghost use Rattle.heading_format.specs.Parts.{most_targets};

use heading_format::{Progress, State};
use refusal::Refusal;
use update::StepName;

// The place of target (i, j) among all, which stand by rows.
pub fn target_place(i: u64, j: u64) -> usize
    requires { (j ≤ i) × (i ≤ 8) }
    ensures { (result ≡ start triangle i + j) × (result < most_targets) }
{
    (i * (i + 1) / 2 + j) as usize
}

// The stage of target (i, j): how many of its steps are done.
fn stage(progress: Progress, i: u64, j: u64) -> u64
    requires { (j ≤ i) × (i ≤ 8) }
    ensures { result ≡ stage_of progress i j }
{
    let at = target_place(i, j);
    let stages = progress.stages;
    stages[at]
}

// Whether a step of this name is one of the steps of k blocks and the last: 21 where it is not.
pub fn is_step(k: u64, name: StepName) -> bool
    ensures { result ≡ is_step k (step_of_name name) }
{
    match name {
        StepName::S(i, j, h) => (h < j) & ((j <= i) & (i <= k)),
        StepName::C(j) => j <= k,
        StepName::T(i, j) => (j < i) & (i <= k),
    }
}

// Whether the step is done: 23 where it is.
pub fn is_done(progress: Progress, name: StepName) -> bool
    requires { IsStep 8 (step_of_name name) }
    ensures { result ≡ done (stage_of progress) (step_of_name name) }
{
    match name {
        StepName::S(i, j, h) => h < stage(progress, i, j),
        StepName::C(j) => j < stage(progress, j, j),
        StepName::T(i, j) => j < stage(progress, i, j),
    }
}

// Whether its forerunners are: 24 where they are not. The subtraction before it is, or there is none, where the target's stage is at least its number.
pub fn forerunners_done(progress: Progress, name: StepName) -> bool
    requires { IsStep 8 (step_of_name name) }
    ensures { result ≡ all (done (stage_of progress)) (forerunners (step_of_name name)) }
{
    match name {
        StepName::S(i, j, h) => {
            let s = stage(progress, i, j);
            let a = stage(progress, i, h);
            let b = stage(progress, j, h);
            (h <= s) & ((h < a) & (h < b))
        }
        StepName::C(j) => j <= stage(progress, j, j),
        StepName::T(i, j) => {
            let d = stage(progress, j, j);
            let s = stage(progress, i, j);
            (j < d) & (j <= s)
        }
    }
}

// The first of 21, 23 and 24 that a name meets.
fn check_name(k: u64, progress: Progress, name: StepName) -> Result<(), Refusal>
    requires { k ≤ 8 }
    ensures { result ≡ name_fault (is_step k (step_of_name name)) (done (stage_of progress) (step_of_name name)) (all (done (stage_of progress)) (forerunners (step_of_name name))) }
{
    if !is_step(k, name) {
        return Err(Refusal::NoSuchStep);
    }
    if is_done(progress, name) {
        return Err(Refusal::StepDone);
    }
    if !forerunners_done(progress, name) {
        return Err(Refusal::ForerunnerMissing);
    }
    Ok(())
}

// The same after 22: no update is under way.
pub fn check(k: u64, progress: Progress, name: StepName) -> Result<(), Refusal>
    requires { k ≤ 8 }
    ensures { result ≡ fault_of k progress (step_of_name name) }
{
    match progress.state {
        State::UnderWay => check_name(k, progress, name),
        State::Idle | State::Finished => Err(Refusal::NoUpdate),
    }
}
