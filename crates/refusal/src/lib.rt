// Why a call is refused (document 01, the two tables of refusals), number by number, each with its places: the error of every call that can be refused.
#![tactic(auto)]

ghost use Rattle.std.specs.Prelude.{◌≡◌};
ghost use Rattle.refusal.specs.Numbers.{numbers, numbers_of};

#[derive(Clone, Copy)]
pub enum Refusal {
    // ---- because of the input: 1 to 14
    SheetTooLong,
    OutOfForm { line: u64 },
    WordNotFinite { line: u64 },
    OutOfRange { line: u64 },
    NotInterceptOnly,
    EmptyRe,
    Slopes,
    DimMismatch,
    FaultyEntry { line: u64 },
    // The Rust's `multiblock_fill` and `cross_gate`: pair j, jj.
    MultiblockFill { j: u64, jj: u64 },
    CrossGate { j: u64, jj: u64 },
    WorkspaceTooShort,
    WrongLength { list: u64 },
    NotFinite { list: u64, index: u64 },
    // ---- because of the state: 20 to 27
    NoWorkspace,
    NoSuchStep,
    NoUpdate,
    StepDone,
    ForerunnerMissing,
    FactorUnfinished,
    PivotRefused { block: u64, row: u64 },
    FixedPivotRefused { row: u64 },
}

// Document 01's number and two places, 0 where there is none.
#[derive(Clone, Copy)]
pub struct Numbers {
    pub number: u64,
    pub first: u64,
    pub second: u64,
}

impl Numbers {
    pub fn new(number: u64, first: u64, second: u64) -> Numbers
        ensures { result ≡ numbers number first second }
    {
        Numbers {
            number,
            first,
            second,
        }
    }
}

impl Refusal {
    // The row of document 01's tables.
    pub fn numbers(self) -> Numbers
        ensures { result ≡ numbers_of self }
    {
        match self {
            Refusal::SheetTooLong => Numbers::new(1, 0, 0),
            Refusal::OutOfForm { line } => Numbers::new(2, line, 0),
            Refusal::WordNotFinite { line } => Numbers::new(3, line, 0),
            Refusal::OutOfRange { line } => Numbers::new(4, line, 0),
            Refusal::NotInterceptOnly => Numbers::new(5, 0, 0),
            Refusal::EmptyRe => Numbers::new(6, 0, 0),
            Refusal::Slopes => Numbers::new(7, 0, 0),
            Refusal::DimMismatch => Numbers::new(8, 0, 0),
            Refusal::FaultyEntry { line } => Numbers::new(9, line, 0),
            Refusal::MultiblockFill { j, jj } => Numbers::new(10, j, jj),
            Refusal::CrossGate { j, jj } => Numbers::new(11, j, jj),
            Refusal::WorkspaceTooShort => Numbers::new(12, 0, 0),
            Refusal::WrongLength { list } => Numbers::new(13, list, 0),
            Refusal::NotFinite { list, index } => Numbers::new(14, list, index),
            Refusal::NoWorkspace => Numbers::new(20, 0, 0),
            Refusal::NoSuchStep => Numbers::new(21, 0, 0),
            Refusal::NoUpdate => Numbers::new(22, 0, 0),
            Refusal::StepDone => Numbers::new(23, 0, 0),
            Refusal::ForerunnerMissing => Numbers::new(24, 0, 0),
            Refusal::FactorUnfinished => Numbers::new(25, 0, 0),
            Refusal::PivotRefused { block, row } => Numbers::new(26, block, row),
            Refusal::FixedPivotRefused { row } => Numbers::new(27, row, 0),
        }
    }
}
