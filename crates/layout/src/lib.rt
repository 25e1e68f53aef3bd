// The layout of a workspace (document 01, Record 2), as definitions in specs/: sorted blocks, the gate, shapes and places of the blocks; and the
// structs that calls hand on by value.
#![tactic(auto)]

// What Record 2 makes of a sheet: the counts; levels and sheet index of each sorted block, 0 past the last; and how the blocks are stored.
#[derive(Clone, Copy)]
pub struct Layout {
    pub n: u64,
    pub p: u64,
    pub q: u64,
    pub k: u64,
    pub m: [u64; 8],
    pub order: [u64; 8],
    // The one pair is stored sparse.
    pub sparse: bool,
    // Factor 1 is a diagonal; who asks for a factor's kind asks `factor_kind` (specs/Shapes.antt).
    pub diagonal: bool,
}

// The longest theta: a number for each of eight blocks.
pub const MOST_THETA: usize = 8;

// How a factor is stored: as its pivots alone, or as a lower triangle by rows.
#[derive(Clone, Copy)]
pub enum FactorKind {
    Diagonal,
    Packed,
}

// How a pair of blocks is stored: whole, or one entry for each column.
#[derive(Clone, Copy)]
pub enum Storage {
    Dense,
    Sparse,
}

// Why the gate refuses a pair of blocks.
#[derive(Clone, Copy)]
pub enum GateRefusal {
    MultiblockFill,
    CrossGate,
}
