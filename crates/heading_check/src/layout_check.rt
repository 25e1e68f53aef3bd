// Whether a layout is one that Records 1 and 2 of document 01 allow. No number of it is trusted: sizes are made only of counts that were found in
// range. What is valid is defined in the crate heading_format, specs/Heading.antt.
ghost use Rattle.std.specs.Prelude.{◌≡◌, ◌<◌, ◌≤◌};
ghost use Rattle.layout.specs.Blocks.{sum};
ghost use Rattle.layout.specs.Shapes.{levels};
ghost use Rattle.heading_format.specs.Heading.{within, every, valid_pair, valid_layout};
ghost use Rattle.heading_check.specs.layout_check.Ranged.{Ranged};

use crate::{counts_check, order_check};
use layout::{Layout, Storage};
use layout_gate::pair_gate;

// Whether every block has 1 to 65,535 levels. The layout is lent to what is asked of each block and each pair: a copy of it for each took a quarter of
// the time of a check of eight blocks.
fn has_levels(layout: &Layout) -> bool
    requires { layout.now.k ≤ 8 }
    ensures { result ≡ every (λ j. within 1 65535 (levels layout.now j)) layout.now.k }
{
    (0..layout.k).all(|j| (1..=65535).contains(&order_check::level(layout, j)))
}

// The sum of the levels.
fn total(layout: Layout) -> u64
    requires { Ranged layout }
    ensures { result ≡ sum (levels layout) layout.k }
{
    let k = layout.k;
    let mut t: u64 = 0;
    for j in 0..k {
        t += order_check::level(&layout, j);
    }
    t
}

// Whether the gate lets a pair be held as it is.
fn pair_passes(layout: &Layout, i: u64, j: u64) -> bool
    requires { Ranged layout.now × (i < layout.now.k) × (j < i) }
    ensures { result ≡ valid_pair layout.now i j }
{
    let rows = order_check::level(layout, i);
    let cols = order_check::level(layout, j);
    match pair_gate::pair_of(layout.k, rows, cols, layout.diagonal, cols) {
        Ok(Storage::Dense) => !layout.sparse,
        Ok(Storage::Sparse) => layout.sparse,
        Err(_) => false,
    }
}

// The pairs of block i with those before it.
fn row_passes(layout: &Layout, i: u64) -> bool
    requires { Ranged layout.now × (i < layout.now.k) }
    ensures { result ≡ every (λ j. valid_pair layout.now i j) i }
{
    (0..i).all(|j| pair_passes(layout, i, j))
}

// All pairs.
fn pairs_pass(layout: &Layout) -> bool
    requires { Ranged layout.now }
    ensures { result ≡ every (λ i. every (λ j. valid_pair layout.now i j) i) layout.now.k }
{
    (0..layout.k).all(|i| row_passes(layout, i))
}

// Whether a layout is valid.
pub fn is_valid_layout(layout: Layout) -> bool
    ensures { result ≡ valid_layout layout }
{
    if counts_check::has_counts(layout) {
        if has_levels(&layout) {
            if order_check::is_sorted(layout) {
                if layout.q == total(layout) {
                    let two = layout.k == 2;
                    let flags = (!layout.diagonal | two)
                        & (!layout.sparse | (layout.diagonal & two));
                    return flags & pairs_pass(&layout);
                }
            }
        }
    }
    false
}
