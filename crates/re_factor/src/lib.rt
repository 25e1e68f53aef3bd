// A diagonal block in the list of doubles (document 01, Records 4 and 7; the Rust's `ReFactor`): begin's scaling, C, logarithms of the pivots,
// solves. The block is a packed triangle or a diagonal; its cells are the rule's, every other double stays. Definitions in specs/Factor.antt.
#![tactic(auto)]

pub mod block_divide;
pub mod block_logs;
pub mod block_solve;
pub mod diagonal_init;
pub mod triangle_init;

ghost use Rattle.std.specs.Prelude.{◌≤◌, length};
ghost use Rattle.storage.specs.Placed.{as_triangle, as_diagonal, Lies};
ghost use Rattle.re_factor.specs.Factor.{TriangleFactored, DiagonalFactored};

use re_lower::{RefusedPivot, cholesky, diagonal_chol, triangle_cells};
use storage::Block;

// C: the packed triangle b becomes its factor, unless a pivot is refused.
pub fn chol(doubles: &mut [f64], b: Block) -> Result<(), RefusedPivot>
    requires { (b.rows ≤ 316) × Lies (length doubles.old) (as_triangle b) }
    ensures { TriangleFactored b doubles.old doubles.new result }
{
    let at = b.at;
    let end = at + triangle_cells::row_start(b.rows);
    cholesky::chol(&mut doubles[at..end], b.rows)
}

// C on a diagonal b: its cells become their roots, unless one is refused.
#[tactic(auto, using(storage::proofs::Starts::start_single))]
pub fn chol_diagonal(doubles: &mut [f64], b: Block) -> Result<(), RefusedPivot>
    requires { Lies (length doubles.old) (as_diagonal b) }
    ensures { DiagonalFactored b doubles.old doubles.new result }
{
    let at = b.at;
    let end = at + b.rows;
    diagonal_chol::chol_diagonal(&mut doubles[at..end], b.rows)
}
