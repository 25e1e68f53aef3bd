// Writes a layout and progress to a heading, the u32 numbers of a workspace (document 01, Records 2 and 5).
ghost use Rattle.std.specs.Prelude.{◌≡◌, [], ◌∷◌, ℕ, ◌+◌, ◌<◌, ◌≤◌, length, get_or};
ghost use Rattle.storage.specs.Part.{store};
ghost use Rattle.layout.specs.Blocks.{padded};
ghost use Rattle.heading_format.specs.Heading.{bit, state_number, layout_numbers, progress_numbers, written};
ghost use Rattle.heading.specs.writer.Small.{SmallLayout, SmallProgress};
ghost use Rattle.heading_format.specs.Parts.{sparse_at, progress_at, heading_length};

use heading_format::{Progress, State, parts};
use layout::Layout;

// The number that a state is written as.
fn state_number(s: State) -> u64
    ensures { (result ≡ state_number s) × (result < 4294967296) }
{
    match s {
        State::Idle => 0,
        State::UnderWay => 1,
        State::Finished => 2,
    }
}

// Writes one number.
fn put(heading: &mut [u32], at: usize, v: u64)
    requires { (at < length heading.old) × (v < 4294967296) }
    ensures { heading.new ≡ store at (v ∷ []) heading.old }
{
    heading[at] = v as u32;
}

// Writes the first n numbers of a list.
fn write_numbers(heading: &mut [u32], at: usize, l: &[u64], n: usize)
    requires { (at + n ≤ length heading.old) × (n ≤ length l.now) × ((i : ℕ) → get_or l.now i 0 < 4294967296) }
    ensures { heading.new ≡ store at (padded n l.now) heading.old }
{
    for j in 0..n {
        heading[at + j] = l[j] as u32;
    }
}

// Writes the counts.
fn write_counts(heading: &mut [u32], n: u64, p: u64, q: u64, k: u64)
    requires { (4 ≤ length heading.old) × (n < 4294967296) × (p < 4294967296) × (q < 4294967296) × (k < 4294967296) }
    ensures { heading.new ≡ store 0 (n ∷ p ∷ q ∷ k ∷ []) heading.old }
{
    put(heading, 0, n);
    put(heading, 1, p);
    put(heading, 2, q);
    put(heading, 3, k);
}

// Writes how the blocks are stored.
fn write_flags(heading: &mut [u32], sparse: bool, diagonal: bool)
    requires { progress_at ≤ length heading.old }
    ensures { heading.new ≡ store sparse_at (bit sparse ∷ bit diagonal ∷ []) heading.old }
{
    put(heading, parts::SPARSE_AT, u64::from(sparse));
    put(heading, parts::DIAGONAL_AT, u64::from(diagonal));
}

// Writes a layout.
fn write_layout(heading: &mut [u32], layout: Layout)
    requires { (heading_length ≤ length heading.old) × SmallLayout layout }
    ensures { heading.new ≡ store 0 (layout_numbers layout) heading.old }
{
    write_counts(heading, layout.n, layout.p, layout.q, layout.k);
    let m = layout.m;
    write_numbers(heading, parts::LEVELS_AT, &m, 8);
    let order = layout.order;
    write_numbers(heading, parts::ORDER_AT, &order, 8);
    write_flags(heading, layout.sparse, layout.diagonal);
}

// Writes a progress, and nothing else.
pub fn write_progress(heading: &mut [u32], progress: Progress)
    requires { (heading_length ≤ length heading.old) × SmallProgress progress }
    ensures { heading.new ≡ store progress_at (progress_numbers progress) heading.old }
{
    let state = progress.state;
    put(heading, parts::PROGRESS_AT, state_number(state));
    put(heading, parts::STEPS_LEFT_AT, progress.left);
    let stages = progress.stages;
    write_numbers(heading, parts::STAGES_AT, &stages, parts::MOST_TARGETS);
}

// Writes all parts of a heading.
pub fn write(heading: &mut [u32], layout: Layout, progress: Progress)
    requires { (heading_length ≤ length heading.old) × SmallLayout layout × SmallProgress progress }
    ensures { heading.new ≡ store 0 (written layout progress) heading.old }
{
    write_layout(heading, layout);
    write_progress(heading, progress);
    let zeros = [0u64; parts::UNUSED_NUMBERS];
    write_numbers(heading, parts::UNUSED_AT, &zeros, parts::UNUSED_NUMBERS);
}
