// The kernels of divide_columns, sparse_schur, scaling and cross_block.

use super::answer::OUT_OF_FORM;
use super::case::Case;
use crate::kernel::Kernel;
use crate::kernel_sizes;
use cross_block::{divide_columns, scaling};
use schur::sparse_schur;
use storage::Block;

#[tactic(auto, using(storage::proofs::Starts::start_single))]
pub fn divide_columns(x: Case, doubles: &mut [f64]) -> u64 {
    let size = kernel_sizes::columns_size(x.p1, x.p2);
    if kernel_sizes::clash(doubles.len(), x.p0, size, x.p3, x.p2) {
        return OUT_OF_FORM;
    }
    let t = Block {
        at: x.p0,
        rows: x.p1,
        cols: x.p2,
    };
    let f = Block {
        at: x.p3,
        rows: x.p2,
        cols: x.p2,
    };
    divide_columns::divide_columns(doubles, t, f);
    0
}

pub fn solve_rows(x: Case, doubles: &mut [f64]) -> u64 {
    let size = kernel_sizes::columns_size(x.p1, x.p2);
    let factor = kernel_sizes::packed_size(x.p2);
    if (x.p1 > kernel_sizes::ROWS) || kernel_sizes::clash(doubles.len(), x.p0, size, x.p3, factor) {
        return OUT_OF_FORM;
    }
    let t = Block {
        at: x.p0,
        rows: x.p1,
        cols: x.p2,
    };
    let f = Block {
        at: x.p3,
        rows: x.p2,
        cols: x.p2,
    };
    cross_block::solve_rows(doubles, t, f);
    0
}

pub fn subtract_sparse(x: Case, doubles: &mut [f64], heading: &[u32]) -> u64 {
    let size = kernel_sizes::columns_size(x.p1, x.p2);
    let source = kernel_sizes::columns_size(x.p1, x.p5);
    if (x.p1 > kernel_sizes::ROWS)
        || kernel_sizes::clash(doubles.len(), x.p0, size, x.p3, source)
        || kernel_sizes::clash(doubles.len(), x.p0, size, x.p4, x.p5)
        || kernel_sizes::bad_rows(heading, x.p6, x.p5, x.p2)
    {
        return OUT_OF_FORM;
    }
    let t = Block {
        at: x.p0,
        rows: x.p1,
        cols: x.p2,
    };
    let a = Block {
        at: x.p3,
        rows: x.p1,
        cols: x.p5,
    };
    let v = Block {
        at: x.p4,
        rows: x.p2,
        cols: x.p5,
    };
    sparse_schur::subtract_sparse(doubles, t, a, v, heading, x.p6);
    0
}

// scale_twice and scale_once.
pub fn scale(x: Case, doubles: &mut [f64]) -> u64 {
    if kernel_sizes::clash(doubles.len(), x.p0, x.p2, x.p1, x.p2) {
        return OUT_OF_FORM;
    }
    if matches!(x.kernel, Kernel::ScaleTwice) {
        scaling::scale_twice(doubles, x.p0, x.p1, x.p2, x.s, x.t);
        return 0;
    }
    scaling::scale_once(doubles, x.p0, x.p1, x.p2, x.s);
    0
}
