// The kernels of triangle_init, diagonal_init, re_factor, block_logs, block_solve and block_divide; a solve's vector lies in w, its factor in v.

use super::answer;
use super::answer::OUT_OF_FORM;
use super::case::Case;
use crate::kernel::Kernel;
use crate::kernel_sizes;
use float_bits::words;
use re_factor::{block_divide, block_logs, block_solve, diagonal_init, triangle_init};
use storage::Block;

#[tactic(auto, using(storage::proofs::Starts::start_single))]
pub fn init(x: Case, doubles: &mut [f64]) -> u64 {
    let size = kernel_sizes::packed_size(x.p1);
    if kernel_sizes::clash(doubles.len(), x.p0, size, x.p2, x.p1) {
        return OUT_OF_FORM;
    }
    let b = Block {
        at: x.p0,
        rows: x.p1,
        cols: x.p1,
    };
    triangle_init::init(doubles, b, x.p2, x.s);
    0
}

#[tactic(auto, using(storage::proofs::Starts::start_single))]
pub fn init_diagonal(x: Case, doubles: &mut [f64]) -> u64 {
    if kernel_sizes::clash(doubles.len(), x.p0, x.p1, x.p2, x.p1) {
        return OUT_OF_FORM;
    }
    let b = Block {
        at: x.p0,
        rows: x.p1,
        cols: x.p1,
    };
    diagonal_init::init_diagonal(doubles, b, x.p2, x.s);
    0
}

// chol, log_pivots and logs_later.
pub fn packed_block(x: Case, doubles: &mut [f64]) -> u64 {
    if kernel_sizes::no_packed(doubles.len(), x.p0, x.p1) {
        return OUT_OF_FORM;
    }
    let b = Block {
        at: x.p0,
        rows: x.p1,
        cols: x.p1,
    };
    if matches!(x.kernel, Kernel::BlockChol) {
        return answer::row(re_factor::chol(doubles, b));
    }
    if matches!(x.kernel, Kernel::BlockLogPivots) {
        return words::word_of(block_logs::log_pivots(doubles, b, x.s));
    }
    words::word_of(block_logs::logs_later(doubles, b, x.s))
}

// chol_diagonal, log_diagonal and logs_later_diagonal.
#[tactic(auto, using(storage::proofs::Starts::start_single))]
pub fn diagonal_block(x: Case, doubles: &mut [f64]) -> u64 {
    if x.p0 + x.p1 > doubles.len() {
        return OUT_OF_FORM;
    }
    let b = Block {
        at: x.p0,
        rows: x.p1,
        cols: x.p1,
    };
    if matches!(x.kernel, Kernel::BlockCholDiagonal) {
        return answer::row(re_factor::chol_diagonal(doubles, b));
    }
    if matches!(x.kernel, Kernel::BlockLogDiagonal) {
        return words::word_of(block_logs::log_diagonal(doubles, b, x.s));
    }
    words::word_of(block_logs::logs_later_diagonal(doubles, b, x.s))
}

// forward and backward.
pub fn solve(x: Case, doubles: &mut [f64], v: &[f64]) -> u64 {
    if (x.p0 + x.p2 > doubles.len()) || kernel_sizes::no_packed(v.len(), x.p1, x.p2) {
        return OUT_OF_FORM;
    }
    let b = Block {
        at: x.p1,
        rows: x.p2,
        cols: x.p2,
    };
    if matches!(x.kernel, Kernel::BlockForward) {
        block_solve::forward(doubles, x.p0, v, b);
        return 0;
    }
    block_solve::backward(doubles, x.p0, v, b);
    0
}

#[tactic(auto, using(storage::proofs::Starts::start_single))]
pub fn divide(x: Case, doubles: &mut [f64], v: &[f64]) -> u64 {
    if x.p0 + x.p2 > doubles.len() {
        return OUT_OF_FORM;
    }
    if x.p1 + x.p2 > v.len() {
        return OUT_OF_FORM;
    }
    let b = Block {
        at: x.p1,
        rows: x.p2,
        cols: x.p2,
    };
    block_divide::divide(doubles, x.p0, v, b);
    0
}
