// Whether the counts of a heading are in their ranges (document 01, Record 1 and number 20).
ghost use Rattle.std.specs.Prelude.{◌≡◌, ◌&&◌, ◌<◌};
ghost use Rattle.heading_format.specs.Heading.{within};

use layout::Layout;

// Whether a number is in a range: a function, since `search` gives up at three ranges in one.
fn in_range(low: u64, high: u64, x: u64) -> bool
    ensures { result ≡ within low high x }
{
    (low..=high).contains(&x)
}

// Whether the numbers of readings, fixed effects and blocks are in range.
pub fn has_counts(layout: Layout) -> bool
    ensures { result ≡ (within 1 1000000000 layout.n && within 1 32 layout.p && within 1 8 layout.k) }
{
    in_range(1, 1000000000, layout.n) & in_range(1, 32, layout.p) & in_range(1, 8, layout.k)
}
