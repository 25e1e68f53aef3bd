// Where the cells of a block lie in a list of doubles: packed triangle, diagonal, dense by columns, one entry a column; and a block as a value.
// Definitions in specs/, laws in proofs/.
#![tactic(auto)]

// A block of a list of doubles: where it starts, its rows and its columns. How its cells lie is said by who takes it (specs/Placed.antt).
#[derive(Clone, Copy)]
pub struct Block {
    pub at: usize,
    pub rows: usize,
    pub cols: usize,
}
