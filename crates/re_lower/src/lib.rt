// A packed lower triangle (document 01, Record 4; the Rust's `ReLower`) and a diagonal: Cholesky, forward and backward substitution, logarithms of
// the pivots. At the root whether a pivot is refused, and a cell less products. Definitions in specs/Lower.antt.
#![tactic(auto)]

pub mod back_substitution;
mod band_row;
pub mod cholesky;
pub mod diagonal_chol;
mod four_rows;
pub mod pivot_logs;
pub mod substitution;
pub mod triangle_cells;

ghost use Rattle.std.specs.Prelude.{◌≡◌, ◌+◌, ◌*◌, ◌≤◌, ◌<◌, length};
ghost use Rattle.rules.specs.Arithmetic.{ieee};
ghost use Rattle.re_lower.specs.Lower.{chain_of};

// Why a block has no factor: the pivot of this row is refused.
#[derive(Clone, Copy, PartialEq, Eq, Debug)]
pub struct RefusedPivot {
    pub row: usize,
}

// A pivot's radicand is refused where it is at most 0; NaN passes.
pub fn refused(x: f64) -> bool
    ensures { result ≡ ieee.refused x }
{
    x <= 0.0
}

// s less the products of the doubles of x with those of y, one by one.
pub fn chain(s: f64, x: &[f64], y: &[f64]) -> f64
    requires { length x.now ≡ length y.now }
    ensures { result ≡ chain_of s x.now y.now }
{
    let mut v = s;
    for i in 0..x.len() {
        v = v - x[i] * y[i];
    }
    v
}
