// S, the subtraction of one block times another transposed (document 01, Record 4; the Rust's `rank_sub_*`, `schur_sub_*`), on the whole list of
// doubles: the target's cells are the rule's, every other double stays. At the root one run that sums from 0.0 and subtracts once; a module for each
// kind of target. A dense block has at most 316 rows.
#![tactic(auto)]

pub mod dense_triangle;
mod few_rows;
pub mod last_triangle;
pub mod rank_diagonal;
pub mod rank_diagonal_sparse;
pub mod schur_dense;
pub mod sparse_schur;

ghost use Rattle.std.specs.Prelude.{◌≡◌, ◌+◌, ◌≤◌, ◌<◌, length};
ghost use Rattle.storage.specs.Placed.{Lies, as_columns};
ghost use Rattle.schur.specs.Schur.{subtract_sums};

use block_runs::{axpy_products, runs};
use storage::Block;

// n doubles from `to` on, of the block at `off`: less the sums of the products of rows 0 to n - 1 of block a and row r of block b. The block is lent as
// the part that starts at its own offset.
fn subtract_run(
    doubles: &mut [f64],
    acc: &mut [f64],
    off: usize,
    to: usize,
    n: usize,
    a: Block,
    b: Block,
    r: usize,
)
    requires { (n ≤ a.rows) × (n ≤ length acc.old) × (r < b.rows) × (b.cols ≡ a.cols) × (off ≤ to) × (to + n ≤ length doubles.old) × Lies (length doubles.old) (as_columns a) × Lies (length doubles.old) (as_columns b) }
    ensures { doubles.new ≡ subtract_sums to n a b r doubles.old }
{
    runs::clear(acc, n);
    axpy_products::add_products(
        acc, n, doubles, a.at, a.rows, doubles, b.at, b.rows, r, a.cols,
    );
    runs::subtract(doubles, off, to, n, acc);
}
