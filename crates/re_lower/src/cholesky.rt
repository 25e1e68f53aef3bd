// C on a packed triangle (document 01, Record 4): its Cholesky factor in its place, by bands of four rows.
ghost use Rattle.std.specs.Prelude.{◌≡◌, ◌+◌, ◌*◌, ◌≤◌, ◌<◌, length};
ghost use Rattle.storage.specs.Runs.{start, triangle};
ghost use Rattle.re_lower.specs.Lower.{TriangleDone};
ghost use Rattle.re_lower.specs.Band.{NextBand};

use crate::{RefusedPivot, band_row, four_rows};

// The band that row r is in: the one from `base` on or, where that one ends before r, the next, solved with the r rows above it.
// Where x has no room for bands, it is one that has no cells.
fn next_band(x: &mut [f64], t: &[f64], from: usize, base: usize, r: usize, n: usize) -> usize
    requires { (base ≤ r) × (r < n) × (n ≤ 316) × (from ≡ start triangle r) × (start triangle n ≤ length t.now) }
    ensures { NextBand t.now x.old x.new base r n result }
{
    if x.len() < 4 * n {
        return 0;
    }
    if r < base + 4 {
        return base;
    }
    let rows = four_rows::band_rows(n - r);
    four_rows::gather(x, t, from, r, rows);
    four_rows::solve_four(x, t, r);
    r
}

// chol, with room for a band in x, or with none. The rows of a band share the pass over the rows above it; each goes back to t at its turn,
// so that those behind a refused row are as they were.
#[tactic(auto, using(storage::proofs::Starts::start_below))]
fn chol_bands(t: &mut [f64], x: &mut [f64], n: usize) -> Result<(), RefusedPivot>
    requires { (start triangle n ≤ length t.old) × (n ≤ 316) }
    ensures { TriangleDone t.old t.new n result }
{
    let mut from = 0;
    let mut base = 0;
    for r in 0..n {
        base = next_band(x, t, from, base, r, n);
        band_row::band_row(t, x, from, base, r);
        let d = crate::chain(t[from + r], &t[from..from + r], &t[from..from + r]);
        if crate::refused(d) {
            return Err(RefusedPivot { row: r });
        }
        t[from + r] = square_root::sqrt(d);
        from += r + 1;
    }
    Ok(())
}

// C: the packed triangle of n rows that t begins with becomes its factor, unless a pivot is refused.
// Row by row, four rows side by side: each cell has the operations of the reference's columns in their order.
// A band has room for as many cells as a row can have. Below 12 rows it would cost more than it saves.
pub fn chol(t: &mut [f64], n: usize) -> Result<(), RefusedPivot>
    requires { (start triangle n ≤ length t.old) × (n ≤ 316) }
    ensures { TriangleDone t.old t.new n result }
{
    if n < 12 {
        let mut none = [0.0; 4];
        return chol_bands(t, &mut none, n);
    }
    let mut x = [0.0; 1264];
    chol_bands(t, &mut x, n)
}
