// A band: up to four rows of a packed triangle side by side, so that their chains of subtractions overlap and their cells lie together.
ghost use Rattle.std.specs.Prelude.{◌≡◌, ℕ, ◌+◌, ◌*◌, ◌≤◌, ◌<◌, length};
ghost use Rattle.storage.specs.Runs.{start, triangle};
ghost use Rattle.re_lower.specs.Band.{four_done, FourSolved, Gathered, BandGathered, lane_stored};

// Cell c of the four rows of a band, by row c of the packed factor l, which lies from `from` on.
// Four chains side by side: each waits for its own subtractions only, and their cells lie together.
pub fn four_cells(x: &mut [f64], l: &[f64], from: usize, c: usize)
    requires { (4 * c + 4 ≤ length x.old) × (from + c < length l.now) }
    ensures { x.new ≡ four_done x.old l.now from c }
{
    let k = 4 * c;
    let mut s = [x[k], x[k + 1], x[k + 2], x[k + 3]];
    for y in 0..c {
        let q = l[from + y];
        for i in 0..4 {
            s[i] = s[i] - x[4 * y + i] * q;
        }
    }
    let p = l[from + c];
    for r in 0..4 {
        x[k + r] = s[r] / p;
    }
}

// T on a band: the first n cells of its four rows are solved in place with the packed factor l.
#[tactic(auto, using(storage::proofs::Starts::start_below))]
pub fn solve_four(x: &mut [f64], l: &[f64], n: usize)
    requires { (4 * n ≤ length x.old) × (start triangle n ≤ length l.now) }
    ensures { FourSolved x.old l.now x.new n }
{
    let mut from = 0;
    for c in 0..n {
        four_cells(x, l, from, c);
        from += c + 1;
    }
}

// Row i of a band: the n cells of t from `from` on.
pub fn gather_row(x: &mut [f64], t: &[f64], from: usize, i: usize, n: usize)
    requires { (i < 4) × (4 * n ≤ length x.old) × (from + n ≤ length t.now) }
    ensures { Gathered x.old t.now x.new from i n }
{
    for c in 0..n {
        x[4 * c + i] = t[from + c];
    }
}

// The first `base` cells of `rows` rows of a packed triangle, of which the first is row `base` and lies from `from` on.
#[tactic(auto, using(storage::proofs::Starts::start_below))]
pub fn gather(x: &mut [f64], t: &[f64], from: usize, base: usize, rows: usize)
    requires { (rows ≤ 4) × (from ≡ start triangle base) × (4 * base ≤ length x.old) × (start triangle (base + rows) ≤ length t.now) }
    ensures { BandGathered t.now x.new base rows }
{
    let mut at = from;
    for i in 0..rows {
        gather_row(x, t, at, i, base);
        at += base + i + 1;
    }
}

// How many rows a band has where k rows are left.
pub fn band_rows(k: usize) -> usize
    ensures { (result ≤ 4) × (result ≤ k) × ((i : ℕ) → i < 4 → i < k → i < result) }
{
    if k < 4 { k } else { 4 }
}

// The first n cells of row i of a band go to t from `from` on.
pub fn put_row(t: &mut [f64], x: &[f64], from: usize, i: usize, n: usize)
    requires { (0 < n → i < 4) × (4 * n ≤ length x.now) × (from + n ≤ length t.old) }
    ensures { t.new ≡ lane_stored t.old x.now from i n }
{
    for c in 0..n {
        t[from + c] = x[4 * c + i];
    }
}
