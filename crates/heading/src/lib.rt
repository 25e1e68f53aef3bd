// The heading of a workspace (document 01, Records 2 and 5), read as a layout and a progress, and written. What each of its numbers is, is defined in
// the crate heading_format, specs/Heading.antt. Only `writer::write_progress` changes the progress of a heading.
#![tactic(auto)]

pub mod idle_progress;
pub mod writer;

ghost use Rattle.std.specs.Prelude.{◌≡◌, ◌+◌, ◌<◌, ◌≤◌, length, get_or, take, drop};
ghost use Rattle.heading_format.specs.Heading.{state_of, layout_of, progress_of};
ghost use Rattle.heading_format.specs.Parts.{stages_at, most_targets, progress_end, heading_length};

use heading_format::{Progress, State, parts};
use layout::Layout;

// The number at a place.
fn number(heading: &[u32], at: usize) -> u64
    requires { at < length heading.now }
    ensures { result ≡ get_or heading.now at 0 }
{
    u64::from(heading[at])
}

// Fills a list with the numbers from a place on.
fn fill(heading: &[u32], at: usize, r: &mut [u64])
    requires { at + length r.old ≤ length heading.now }
    ensures { r.new ≡ take (length r.old) (drop at heading.now) }
{
    let n = r.len();
    for j in 0..n {
        r[j] = number(heading, at + j);
    }
}

// The eight numbers from a place on: a number of each sorted block.
fn eight(heading: &[u32], at: usize) -> [u64; 8]
    requires { at + 8 ≤ length heading.now }
    ensures { result ≡ take 8 (drop at heading.now) }
{
    let mut r = [0u64; 8];
    fill(heading, at, &mut r);
    r
}

// The stages of the target blocks.
fn stages(heading: &[u32]) -> [u64; parts::MOST_TARGETS]
    requires { progress_end ≤ length heading.now }
    ensures { result ≡ take most_targets (drop stages_at heading.now) }
{
    let mut r = [0u64; parts::MOST_TARGETS];
    fill(heading, parts::STAGES_AT, &mut r);
    r
}

// What the state's number stands for.
fn state(v: u64) -> State
    ensures { result ≡ state_of v }
{
    match v {
        0 => State::Idle,
        1 => State::UnderWay,
        _ => State::Finished,
    }
}

// The layout that a heading tells.
pub fn layout(heading: &[u32]) -> Layout
    requires { heading_length ≤ length heading.now }
    ensures { result ≡ layout_of heading.now }
{
    let m = eight(heading, parts::LEVELS_AT);
    let order = eight(heading, parts::ORDER_AT);
    Layout {
        n: number(heading, 0),
        p: number(heading, 1),
        q: number(heading, 2),
        k: number(heading, 3),
        m,
        order,
        sparse: number(heading, parts::SPARSE_AT) == 1,
        diagonal: number(heading, parts::DIAGONAL_AT) == 1,
    }
}

// The progress that a heading tells.
pub fn progress(heading: &[u32]) -> Progress
    requires { heading_length ≤ length heading.now }
    ensures { result ≡ progress_of heading.now }
{
    let state = state(number(heading, parts::PROGRESS_AT));
    let stages = stages(heading);
    Progress {
        state,
        left: number(heading, parts::STEPS_LEFT_AT),
        stages,
    }
}
