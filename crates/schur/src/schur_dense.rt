// S of a dense cross block (document 01, Record 4; the Rust's `schur_sub_re_cross`, `schur_sub_xy_re`), on the whole list of doubles.
ghost use Rattle.std.specs.Prelude.{◌≡◌, ◌+◌, ◌≤◌, ◌<◌, length};
ghost use Rattle.storage.specs.Placed.{Product, Within, as_columns};
ghost use Rattle.schur.specs.Schur.{subtracted_dense, subtract_sums};

use crate::few_rows;
use block_runs::{axpy_pair, runs};
use storage::Block;

// Columns c and c + 1 of the block t, which lie from `to` on: less the sums of the products of the rows of block a and row c of block b, and row c + 1.
// The rows of block a are loaded once for both, and the block is lent as the part that starts at its own offset.
fn subtract_pair(
    doubles: &mut [f64],
    acc: &mut [f64],
    acc2: &mut [f64],
    t: Block,
    a: Block,
    b: Block,
    c: usize,
    to: usize,
)
    requires { Product (length doubles.old) as_columns as_columns t a b × (t.rows ≤ length acc.old) × (t.rows ≤ length acc2.old) × (c + 1 < t.cols) × Within (as_columns t) to (t.rows + t.rows) }
    ensures { doubles.new ≡ subtract_sums (to + t.rows) t.rows a b (c + 1) (subtract_sums to t.rows a b c doubles.old) }
{
    let n = t.rows;
    let off = t.at;
    runs::clear(acc, n);
    runs::clear(acc2, n);
    axpy_pair::add_products_pair(
        acc, acc2, n, doubles, a.at, a.rows, doubles, b.at, b.rows, c, a.cols,
    );
    runs::subtract(doubles, off, to, n, acc);
    runs::subtract(doubles, off, to + n, n, acc2);
}

// S of the dense block t, two columns at a time: the sums of a column lie side by side.
fn subtract_columns(doubles: &mut [f64], t: Block, a: Block, b: Block)
    requires { (t.rows ≤ 316) × Product (length doubles.old) as_columns as_columns t a b }
    ensures { doubles.new ≡ subtracted_dense t a b doubles.old }
{
    let mut acc = [0.0; 316];
    let mut acc2 = [0.0; 316];
    let mut c = 0;
    let mut to = t.at;
    // An odd column is left where the pairs end: no plainer as a `for`.
    while t.cols - c >= 2 {
        subtract_pair(doubles, &mut acc, &mut acc2, t, a, b, c, to);
        c += 2;
        to += 2 * t.rows;
    }
    if c < t.cols {
        crate::subtract_run(doubles, &mut acc, t.at, to, t.rows, a, b, c);
    }
}

// S of the dense block t: less block a times block b transposed.
pub fn subtract_dense(doubles: &mut [f64], t: Block, a: Block, b: Block)
    requires { (t.rows ≤ 316) × Product (length doubles.old) as_columns as_columns t a b }
    ensures { doubles.new ≡ subtracted_dense t a b doubles.old }
{
    // The longer side of the target is the one that packed loops run over.
    if t.rows <= 12 && t.rows < t.cols && t.cols <= 316 {
        few_rows::subtract_few(doubles, t, a, b);
        return;
    }
    subtract_columns(doubles, t, a, b);
}
