// The kernels of rank_diagonal and rank_diagonal_sparse.

use super::answer::OUT_OF_FORM;
use super::case::Case;
use crate::kernel_sizes;
use schur::{rank_diagonal, rank_diagonal_sparse};
use storage::Block;

#[tactic(auto, using(storage::proofs::Starts::start_single))]
pub fn rank_sub_diagonal(x: Case, doubles: &mut [f64]) -> u64 {
    let size = kernel_sizes::columns_size(x.p1, x.p3);
    if (x.p1 > kernel_sizes::ROWS)
        || kernel_sizes::clash(doubles.len(), x.p0, x.p1, x.p2, size)
        || kernel_sizes::clash(doubles.len(), x.p0, x.p1, x.p4, size)
    {
        return OUT_OF_FORM;
    }
    let t = Block {
        at: x.p0,
        rows: x.p1,
        cols: x.p1,
    };
    let a = Block {
        at: x.p2,
        rows: x.p1,
        cols: x.p3,
    };
    rank_diagonal::rank_sub_diagonal(doubles, t, a, x.p4);
    0
}

#[tactic(auto, using(storage::proofs::Starts::start_single))]
pub fn rank_sub_diagonal_sparse(x: Case, doubles: &mut [f64], heading: &[u32]) -> u64 {
    if (x.p5 + x.p3 > heading.len())
        || kernel_sizes::clash(doubles.len(), x.p0, x.p1, x.p2, x.p3)
        || kernel_sizes::clash(doubles.len(), x.p0, x.p1, x.p4, x.p3)
    {
        return OUT_OF_FORM;
    }
    let t = Block {
        at: x.p0,
        rows: x.p1,
        cols: x.p1,
    };
    let a = Block {
        at: x.p2,
        rows: x.p1,
        cols: x.p3,
    };
    rank_diagonal_sparse::rank_sub_diagonal_sparse(doubles, t, a, x.p4, heading, x.p5);
    0
}
