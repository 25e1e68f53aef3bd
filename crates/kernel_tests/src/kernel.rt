// The kernels that the program runs.

// By their places in tools/kernel_list.py, from 0 on.
const LISTED: [Kernel; 33] = [
    Kernel::LowerChol,
    Kernel::LowerCholDiagonal,
    Kernel::LowerLogPivots,
    Kernel::LowerLogDiagonal,
    Kernel::SolveRow,
    Kernel::Backward,
    Kernel::Get,
    Kernel::Set,
    Kernel::DivideColumns,
    Kernel::SubtractSparse,
    Kernel::ScaleTwice,
    Kernel::ScaleOnce,
    Kernel::SolveRows,
    Kernel::SubtractDense,
    Kernel::RankSub,
    Kernel::SubtractLast,
    Kernel::MatvecSub,
    Kernel::MatvecTSub,
    Kernel::SparseMatvecSub,
    Kernel::SparseMatvecTSub,
    Kernel::Init,
    Kernel::InitDiagonal,
    Kernel::BlockChol,
    Kernel::BlockCholDiagonal,
    Kernel::BlockLogPivots,
    Kernel::BlockLogDiagonal,
    Kernel::BlockLogsLater,
    Kernel::BlockLogsLaterDiagonal,
    Kernel::BlockForward,
    Kernel::BlockBackward,
    Kernel::BlockDivide,
    Kernel::RankSubDiagonal,
    Kernel::RankSubDiagonalSparse,
];

#[derive(Clone, Copy)]
pub enum Kernel {
    LowerChol,
    LowerCholDiagonal,
    LowerLogPivots,
    LowerLogDiagonal,
    SolveRow,
    Backward,
    Get,
    Set,
    DivideColumns,
    SubtractSparse,
    ScaleTwice,
    ScaleOnce,
    SolveRows,
    SubtractDense,
    RankSub,
    SubtractLast,
    MatvecSub,
    MatvecTSub,
    SparseMatvecSub,
    SparseMatvecTSub,
    Init,
    InitDiagonal,
    BlockChol,
    BlockCholDiagonal,
    BlockLogPivots,
    BlockLogDiagonal,
    BlockLogsLater,
    BlockLogsLaterDiagonal,
    BlockForward,
    BlockBackward,
    BlockDivide,
    RankSubDiagonal,
    RankSubDiagonalSparse,
}

// A number that no kernel has.
#[derive(Clone, Copy)]
pub struct NoKernel;

impl TryFrom<u64> for Kernel {
    type Error = NoKernel;

    fn try_from(number: u64) -> Result<Kernel, NoKernel> {
        LISTED.get(number as usize).copied().ok_or(NoKernel)
    }
}
