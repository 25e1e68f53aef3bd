// The kernels of cholesky, diagonal_chol, pivot_logs, substitution, back_substitution and triangle_cells. They take no offset: t and l begin with
// the block and the factor.
ghost use Rattle.std.specs.Prelude.{◌≡◌, false, ◌+◌, ◌≤◌, ◌<◌};
ghost use Rattle.storage.specs.Shape.{packed, size_of};

use super::answer;
use super::answer::OUT_OF_FORM;
use super::case::Case;
use crate::kernel::Kernel;
use crate::kernel_sizes;
use float_bits::words;
use re_lower::{
    back_substitution, cholesky, diagonal_chol, pivot_logs, substitution, triangle_cells,
};

// chol and log_pivots.
pub fn packed_block(x: Case, t: &mut [f64]) -> u64 {
    if kernel_sizes::no_packed(t.len(), 0, x.p0) {
        return OUT_OF_FORM;
    }
    if matches!(x.kernel, Kernel::LowerChol) {
        return answer::row(cholesky::chol(t, x.p0));
    }
    words::word_of(pivot_logs::log_pivots(t, x.p0, x.s))
}

// chol_diagonal and log_diagonal.
pub fn diagonal_block(x: Case, t: &mut [f64]) -> u64 {
    if x.p0 > t.len() {
        return OUT_OF_FORM;
    }
    if matches!(x.kernel, Kernel::LowerCholDiagonal) {
        return answer::row(diagonal_chol::chol_diagonal(t, x.p0));
    }
    words::word_of(pivot_logs::log_diagonal(t, x.p0, x.s))
}

// solve_row and backward.
pub fn solve(x: Case, t: &mut [f64], l: &[f64]) -> u64 {
    if (x.p0 > t.len()) || kernel_sizes::no_packed(l.len(), 0, x.p0) {
        return OUT_OF_FORM;
    }
    if matches!(x.kernel, Kernel::SolveRow) {
        substitution::solve_row(t, l, x.p0);
        return 0;
    }
    back_substitution::backward(t, l, x.p0);
    0
}

// Whether (r, c) is no cell of a packed triangle that begins a list of len.
fn no_cell(len: usize, r: usize, c: usize) -> bool
    requires { (r ≤ 65535) × (c ≤ 65535) }
    ensures { result ≡ false → (c ≤ r) × (r ≤ 315) × (size_of (packed r) + c < len) }
{
    let size = kernel_sizes::packed_size(r);
    c > r || r >= kernel_sizes::ROWS || size + c >= len
}

// get and set.
pub fn cell(x: Case, t: &mut [f64]) -> u64 {
    if no_cell(t.len(), x.p0, x.p1) {
        return OUT_OF_FORM;
    }
    if matches!(x.kernel, Kernel::Set) {
        triangle_cells::set(t, x.p0, x.p1, x.s);
        return 0;
    }
    words::word_of(triangle_cells::get(t, x.p0, x.p1))
}
