// A row of a band of four (document 01, Record 4: C), solved beside the triangle and put back at its turn.
ghost use Rattle.std.specs.Prelude.{◌≡◌, ◌+◌, ◌*◌, ◌≤◌, ◌<◌, length};
ghost use Rattle.storage.specs.Runs.{start, triangle};
ghost use Rattle.re_lower.specs.Lower.{left_of_pivot_done};
ghost use Rattle.re_lower.specs.Band.{LeftOfPivotFrom, RowReady};

use crate::four_rows;

// Row r, which lies from `from` on, left of its pivot: its first c0 cells are solved, and the others are with the rows above it, in place.
// Row c0 lies from `first` on.
#[tactic(auto, using(storage::proofs::Starts::start_below))]
fn row_left_of_pivot(t: &mut [f64], from: usize, first: usize, c0: usize, r: usize)
    requires { (from ≡ start triangle r) × (from + r ≤ length t.old) × (first ≡ start triangle c0) × (c0 ≤ r) }
    ensures { LeftOfPivotFrom t.old t.new from c0 r }
{
    let mut at = first;
    for c in c0..r {
        let v = crate::chain(t[from + c], &t[from..from + c], &t[at..at + c]);
        t[from + c] = v / t[at + c];
        at += c + 1;
    }
}

// Row r, which lies from `from` on, left of its pivot: its first `base` cells are those that the band has, the others are solved here.
pub fn band_row(t: &mut [f64], x: &[f64], from: usize, base: usize, r: usize)
    requires { (from ≡ start triangle r)
        × (from + r ≤ length t.old)
        × (base ≤ r)
        × (0 < base → r < base + 4)
        × (4 * base ≤ length x.now)
        × RowReady t.old x.now from base r }
    ensures { t.new ≡ left_of_pivot_done t.old from r }
{
    four_rows::put_row(t, x, from, r - base, base);
    row_left_of_pivot(t, from, base * (base + 1) / 2, base, r);
}
