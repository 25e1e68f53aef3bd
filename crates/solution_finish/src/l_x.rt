// C of the fixed effects' triangle (document 01, Record 7, refusal 27): as C elsewhere, but a pivot that is NaN is refused too.
ghost use Rattle.std.specs.Prelude.{◌≡◌, ℕ, ◌+◌, ◌≤◌, ◌<◌, T, length};
ghost use Rattle.std.specs.Float.{binary64};
ghost use Rattle.std.specs.Float.Ieee.{fits};
ghost use Rattle.storage.specs.Shape.{packed, size_of};
ghost use Rattle.re_factor.specs.Factor.{pivot_at};
ghost use Rattle.solution_finish.specs.l_x.Factor.{triangle_at, not_above, first_not_above, FixedFactored};

use re_lower::RefusedPivot;
use storage::Block;

fn not_above(x: f64) -> bool
    ensures { result ≡ not_above x }
{
    !(x > 0.0)
}

// The first of the n pivots of the packed factor at off that is not above 0.
fn first_not_above(v: &[f64], off: usize, n: usize) -> Result<(), RefusedPivot>
    requires { off + size_of (packed n) ≤ length v.now }
    ensures { result ≡ first_not_above off n v.now }
{
    let mut at = off;
    for r in 0..n {
        if not_above(v[at]) {
            return Err(RefusedPivot { row: r });
        }
        at += r + 2;
    }
    Ok(())
}

// C lets NaN pass; its root is NaN, so the pivots that stand tell the rows that C passed wrongly.
pub fn chol_fixed(v: &mut [f64], off: usize, n: usize) -> Result<(), RefusedPivot>
    requires { (n ≤ 316) × (off + size_of (packed n) ≤ length v.old) × ((r : ℕ) → r < n → T (fits binary64 (pivot_at (triangle_at off n) v.old r))) }
    ensures { FixedFactored off n v.old v.new result }
{
    let b = Block {
        at: off,
        rows: n,
        cols: n,
    };
    match re_factor::chol(v, b) {
        Ok(()) => first_not_above(v, off, n),
        Err(refused) => {
            first_not_above(v, off, refused.row)?;
            Err(refused)
        }
    }
}
