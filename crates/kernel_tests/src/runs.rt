// Each kernel with the lists that it takes.
use super::case::Case;
use super::kernel::Kernel;
use super::{cross, diagonals, factors, lower, products, vectors};

// What the case's kernel answers on the list `doubles`.
pub fn run(x: Case, doubles: &mut [f64], v: &[f64], heading: &[u32]) -> u64 {
    match x.kernel {
        Kernel::LowerChol | Kernel::LowerLogPivots => lower::packed_block(x, doubles),
        Kernel::LowerCholDiagonal | Kernel::LowerLogDiagonal => lower::diagonal_block(x, doubles),
        Kernel::SolveRow | Kernel::Backward => lower::solve(x, doubles, v),
        Kernel::Get | Kernel::Set => lower::cell(x, doubles),
        Kernel::DivideColumns => cross::divide_columns(x, doubles),
        Kernel::SubtractSparse => cross::subtract_sparse(x, doubles, heading),
        Kernel::ScaleTwice | Kernel::ScaleOnce => cross::scale(x, doubles),
        Kernel::SolveRows => cross::solve_rows(x, doubles),
        Kernel::SubtractDense => products::subtract_dense(x, doubles),
        Kernel::RankSub | Kernel::SubtractLast => products::subtract_square(x, doubles),
        Kernel::MatvecSub | Kernel::MatvecTSub => vectors::products(x, doubles, v),
        Kernel::SparseMatvecSub => vectors::sparse_matvec_sub(x, doubles, v, heading),
        Kernel::SparseMatvecTSub => vectors::sparse_matvec_t_sub(x, doubles, v, heading),
        Kernel::Init => factors::init(x, doubles),
        Kernel::InitDiagonal => factors::init_diagonal(x, doubles),
        Kernel::BlockChol | Kernel::BlockLogPivots | Kernel::BlockLogsLater => {
            factors::packed_block(x, doubles)
        }
        Kernel::BlockCholDiagonal | Kernel::BlockLogDiagonal | Kernel::BlockLogsLaterDiagonal =>
            factors::diagonal_block(x, doubles),
        Kernel::BlockForward | Kernel::BlockBackward => factors::solve(x, doubles, v),
        Kernel::BlockDivide => factors::divide(x, doubles, v),
        Kernel::RankSubDiagonal => diagonals::rank_sub_diagonal(x, doubles),
        Kernel::RankSubDiagonalSparse => diagonals::rank_sub_diagonal_sparse(x, doubles, heading),
    }
}
