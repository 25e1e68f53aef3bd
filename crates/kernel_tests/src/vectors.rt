// The kernels of matvec, matvec_t, sparse_matvec and sparse_matvec_t: the vectors lie in `doubles`, the block in v.

use super::answer::OUT_OF_FORM;
use super::case::Case;
use crate::kernel::Kernel;
use crate::kernel_sizes;
use cross_matvec::{matvec_t, sparse_matvec, sparse_matvec_t};
use storage::Block;

// matvec_sub and matvec_t_sub: p1 doubles are changed and p3 read, so that p1 counts the block's rows for the one and its columns for the
// other. At most 316 is what matvec_sub requires of it.
#[tactic(auto, using(storage::proofs::Places::size_columns))]
pub fn products(x: Case, doubles: &mut [f64], v: &[f64]) -> u64 {
    let size = kernel_sizes::columns_size(x.p1, x.p3);
    if (x.p1 > kernel_sizes::ROWS)
        || kernel_sizes::clash(doubles.len(), x.p0, x.p1, x.p2, x.p3)
        || (x.p4 + size > v.len())
    {
        return OUT_OF_FORM;
    }
    if matches!(x.kernel, Kernel::MatvecSub) {
        let a = Block {
            at: x.p4,
            rows: x.p1,
            cols: x.p3,
        };
        cross_matvec::matvec_sub(doubles, x.p0, x.p2, v, a);
        return 0;
    }
    let a = Block {
        at: x.p4,
        rows: x.p3,
        cols: x.p1,
    };
    matvec_t::matvec_t_sub(doubles, x.p0, x.p2, v, a);
    0
}

pub fn sparse_matvec_sub(x: Case, doubles: &mut [f64], v: &[f64], heading: &[u32]) -> u64 {
    if kernel_sizes::bad_rows(heading, x.p5, x.p3, x.p1) {
        return OUT_OF_FORM;
    }
    if (x.p4 + x.p3 > v.len()) || kernel_sizes::clash(doubles.len(), x.p0, x.p1, x.p2, x.p3) {
        return OUT_OF_FORM;
    }
    let first = x.p5;
    let a = Block {
        at: x.p4,
        rows: x.p1,
        cols: x.p3,
    };
    sparse_matvec::sparse_matvec_sub(doubles, x.p0, x.p2, v, a, &heading[first..]);
    0
}

pub fn sparse_matvec_t_sub(x: Case, doubles: &mut [f64], v: &[f64], heading: &[u32]) -> u64 {
    if kernel_sizes::bad_rows(heading, x.p5, x.p1, x.p3) {
        return OUT_OF_FORM;
    }
    if (x.p4 + x.p1 > v.len()) || kernel_sizes::clash(doubles.len(), x.p0, x.p1, x.p2, x.p3) {
        return OUT_OF_FORM;
    }
    let first = x.p5;
    let a = Block {
        at: x.p4,
        rows: x.p3,
        cols: x.p1,
    };
    sparse_matvec_t::sparse_matvec_t_sub(doubles, x.p0, x.p2, v, a, &heading[first..]);
    0
}
