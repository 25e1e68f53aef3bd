// S of a dense cross block that has few rows (document 01, Record 4), on the whole list of doubles. The sums of a row of the target lie side by
// side, since its columns are too short for packed loops; then they are subtracted column by column.
ghost use Rattle.std.specs.Prelude.{◌≡◌, ◌+◌, ◌≤◌, ◌<◌, length};
ghost use Rattle.storage.specs.Runs.{dense, cells};
ghost use Rattle.storage.specs.Shape.{columns, size_of};
ghost use Rattle.storage.specs.Part.{store};
ghost use Rattle.storage.specs.Placed.{Lies, Product, as_columns};
ghost use Rattle.block_runs.specs.axpy.Axpy.{run};
ghost use Rattle.schur.specs.Schur.{subtracted_dense};
ghost use Rattle.schur.specs.few_rows.Few.{row_sums, subtract_sum, subtract_sums};

use block_runs::{axpy_pair, axpy_products, runs};
use storage::Block;

// The doubles of t from `from` on become the sums of the products of the rows of block b and row r of block a.
fn sum_row(
    t: &mut [f64],
    acc: &mut [f64],
    from: usize,
    doubles: &[f64],
    a: Block,
    b: Block,
    r: usize,
)
    requires { (from + b.rows ≤ length t.old) × (b.rows ≤ length acc.old) × (r < a.rows) × (b.cols ≡ a.cols) × Lies (length doubles.now) (as_columns a) × Lies (length doubles.now) (as_columns b) }
    ensures { t.new ≡ run from b.rows (row_sums a b doubles.now r) t.old }
{
    let n = b.rows;
    runs::clear(acc, n);
    axpy_products::add_products(acc, n, doubles, b.at, n, doubles, a.at, a.rows, r, a.cols);
    runs::copy(t, from, n, acc, 0);
}

// The same of row r, and of row r + 1 behind them: block b is loaded once for both.
fn sum_two_rows(
    t: &mut [f64],
    acc: &mut [f64],
    acc2: &mut [f64],
    from: usize,
    doubles: &[f64],
    a: Block,
    b: Block,
    r: usize,
)
    requires { (from + b.rows + b.rows ≤ length t.old) × (b.rows ≤ length acc.old) × (b.rows ≤ length acc2.old) × (r + 1 < a.rows) × (b.cols ≡ a.cols) × Lies (length doubles.now) (as_columns a) × Lies (length doubles.now) (as_columns b) }
    ensures { t.new ≡ run (from + b.rows) b.rows (row_sums a b doubles.now (r + 1)) (run from b.rows (row_sums a b doubles.now r) t.old) }
{
    let n = b.rows;
    runs::clear(acc, n);
    runs::clear(acc2, n);
    axpy_pair::add_products_pair(
        acc, acc2, n, doubles, b.at, n, doubles, a.at, a.rows, r, a.cols,
    );
    runs::copy(t, from, n, acc, 0);
    runs::copy(t, from + n, n, acc2, 0);
}

// The sums of every row of block a, one row behind the other.
fn sum_rows(t: &mut [f64], doubles: &[f64], a: Block, b: Block)
    requires { (b.rows ≤ 316) × (size_of (columns b.rows a.rows) ≤ length t.old) × (b.cols ≡ a.cols) × Lies (length doubles.now) (as_columns a) × Lies (length doubles.now) (as_columns b) }
    ensures { t.new ≡ store 0 (cells (dense b.rows) a.rows (row_sums a b doubles.now)) t.old }
{
    let mut acc = [0.0; 316];
    let mut acc2 = [0.0; 316];
    let mut r = 0;
    let mut from = 0;
    // An odd row is left where the pairs end: no plainer as a `for`.
    while a.rows - r >= 2 {
        sum_two_rows(t, &mut acc, &mut acc2, from, doubles, a, b, r);
        r += 2;
        from += 2 * b.rows;
    }
    if r < a.rows {
        sum_row(t, &mut acc, from, doubles, a, b, r);
    }
}

// Column c of the block t, from `to` on: each double less its row's sum.
fn subtract_column(t: &mut [f64], to: usize, rows: usize, cols: usize, c: usize, sums: &[f64])
    requires { (to + rows ≤ length t.old) × (c < cols) × (size_of (columns cols rows) ≤ length sums.now) }
    ensures { t.new ≡ run to rows (subtract_sum to cols sums.now c t.old) t.old }
{
    runs::change(t, to, to, rows, |i, x| x - sums[i * cols + c]);
}

// The columns of the block t, one by one.
fn subtract_columns(t: &mut [f64], rows: usize, cols: usize, sums: &[f64])
    requires { (size_of (columns rows cols) ≤ length t.old) × (size_of (columns cols rows) ≤ length sums.now) }
    ensures { t.new ≡ store 0 (cells (dense rows) cols (subtract_sums rows cols sums.now t.old)) t.old }
{
    let mut to = 0;
    for c in 0..cols {
        subtract_column(t, to, rows, cols, c, sums);
        to += rows;
    }
}

// S of the dense block t, of at most 12 rows: less block a times block b transposed.
pub fn subtract_few(doubles: &mut [f64], t: Block, a: Block, b: Block)
    requires { (t.rows ≤ 12) × (t.cols ≤ 316) × Product (length doubles.old) as_columns as_columns t a b }
    ensures { doubles.new ≡ subtracted_dense t a b doubles.old }
{
    let off = t.at;
    let end = off + t.cols * t.rows;
    let mut sums = [0.0; 3792];
    sum_rows(&mut sums, doubles, a, b);
    subtract_columns(&mut doubles[off..end], t.rows, t.cols, &sums);
}
