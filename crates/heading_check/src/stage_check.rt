// The stages of a heading's progress (document 01, Record 5 and number 20): each within its target's steps, and no done step without its forerunners.
ghost use Rattle.std.specs.Prelude.{◌≡◌, cond, true, suc, ◌+◌, ◌-◌, ◌<◌, ◌≤◌, leb, length};
ghost use Rattle.storage.specs.Runs.{start, triangle};
ghost use Rattle.step_order.specs.Steps.{S};
ghost use Rattle.heading_format.specs.Heading.{every};
ghost use Rattle.heading_check.specs.stage_check.Walk.{step_with, stepped, stages_in};
ghost use Rattle.heading_format.specs.Parts.{heading_length};

use heading_format::parts;

// What a walk over steps has found: how many are left, and whether each that is done comes after its forerunners.
#[derive(Clone, Copy)]
pub struct Walk {
    pub left: u64,
    pub valid: bool,
}

// How many targets stand in the rows before row i.
fn targets_before(i: u64) -> u64
    requires { i ≤ 8 }
    ensures { (result ≡ start triangle i) × (result ≤ 36) }
{
    i * (i + 1) / 2
}

// The stage of target (i, j).
pub fn stage(heading: &[u32], i: u64, j: u64) -> u64
    requires { (heading_length ≤ length heading.now) × (j ≤ i) × (i ≤ 8) }
    ensures { result ≡ stages_in heading.now i j }
{
    let at = parts::STAGES_AT as u64 + targets_before(i) + j;
    u64::from(heading[at as usize])
}

// No target of row i is past its last step.
fn row_bounded(heading: &[u32], i: u64) -> bool
    requires { (heading_length ≤ length heading.now) × (i ≤ 8) }
    ensures { result ≡ every (λ j. leb (stages_in heading.now i j) (suc j)) (suc i) }
{
    (0..i + 1).all(|j| stage(heading, i, j) <= j + 1)
}

// No target is.
pub fn is_bounded(heading: &[u32], k: u64) -> bool
    requires { (heading_length ≤ length heading.now) × (k ≤ 8) }
    ensures { result ≡ every (λ i. every (λ j. leb (stages_in heading.now i j) (suc j)) (suc i)) (suc k) }
{
    (0..k + 1).all(|i| row_bounded(heading, i))
}

// A step more.
pub fn count_step(w: Walk, done: bool, ready: bool) -> Walk
    requires { w.left ≤ 5000 }
    ensures { (result ≡ step_with w done ready) × (result.left ≤ w.left + 1) }
{
    Walk {
        left: w.left + u64::from(!done),
        valid: w.valid & (!done | ready),
    }
}

// S(i,j,x): after it in its target come others, so those before it are done with it; what is left to see is T(i,x) and T(j,x).
pub fn subtraction(heading: &[u32], w: Walk, i: u64, j: u64, x: u64) -> Walk
    requires { (heading_length ≤ length heading.now) × (x < j) × (j ≤ i) × (i ≤ 8) × (w.left ≤ 5000) }
    ensures { (result ≡ stepped (stages_in heading.now) w (S i j x)) × (result.left ≤ w.left + 1) }
{
    let s = stage(heading, i, j);
    let a = stage(heading, i, x);
    let b = stage(heading, j, x);
    count_step(w, x < s, (x < a) & (x < b))
}
