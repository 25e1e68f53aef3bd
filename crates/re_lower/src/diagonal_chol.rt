// C on a diagonal (document 01, Record 4; the diagonal case of the Rust's `ReFactor`).
ghost use Rattle.std.specs.Prelude.{◌+◌, ◌≤◌, ◌<◌, length};
ghost use Rattle.re_lower.specs.Lower.{DiagonalDone};

use crate::RefusedPivot;

// C on a diagonal: its n cells become their roots, unless one is refused.
pub fn chol_diagonal(t: &mut [f64], n: usize) -> Result<(), RefusedPivot>
    requires { n ≤ length t.old }
    ensures { DiagonalDone t.old t.new n result }
{
    for r in 0..n {
        let d = t[r];
        if crate::refused(d) {
            return Err(RefusedPivot { row: r });
        }
        t[r] = square_root::sqrt(d);
    }
    Ok(())
}
