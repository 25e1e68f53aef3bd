// The kernels of schur: schur_dense, dense_triangle and last_triangle.

use super::answer::OUT_OF_FORM;
use super::case::Case;
use crate::kernel::Kernel;
use crate::kernel_sizes;
use schur::{dense_triangle, last_triangle, schur_dense};
use storage::Block;

pub fn subtract_dense(x: Case, doubles: &mut [f64]) -> u64 {
    let size = kernel_sizes::columns_size(x.p1, x.p2);
    let left = kernel_sizes::columns_size(x.p1, x.p5);
    let right = kernel_sizes::columns_size(x.p2, x.p5);
    if (x.p1 > kernel_sizes::ROWS)
        || kernel_sizes::clash(doubles.len(), x.p0, size, x.p3, left)
        || kernel_sizes::clash(doubles.len(), x.p0, size, x.p4, right)
    {
        return OUT_OF_FORM;
    }
    let t = Block {
        at: x.p0,
        rows: x.p1,
        cols: x.p2,
    };
    let a = Block {
        at: x.p3,
        rows: x.p1,
        cols: x.p5,
    };
    let b = Block {
        at: x.p4,
        rows: x.p2,
        cols: x.p5,
    };
    schur_dense::subtract_dense(doubles, t, a, b);
    0
}

// rank_sub and subtract_last.
pub fn subtract_square(x: Case, doubles: &mut [f64]) -> u64 {
    let size = kernel_sizes::packed_size(x.p1);
    let source = kernel_sizes::columns_size(x.p1, x.p3);
    if (x.p1 > kernel_sizes::ROWS) || kernel_sizes::clash(doubles.len(), x.p0, size, x.p2, source) {
        return OUT_OF_FORM;
    }
    let t = Block {
        at: x.p0,
        rows: x.p1,
        cols: x.p1,
    };
    let a = Block {
        at: x.p2,
        rows: x.p1,
        cols: x.p3,
    };
    if matches!(x.kernel, Kernel::RankSub) {
        dense_triangle::rank_sub(doubles, t, a);
        return 0;
    }
    last_triangle::subtract_last(doubles, t, a);
    0
}
