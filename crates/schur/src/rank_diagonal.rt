// S of a block that is stored as a diagonal (document 01, Record 4), on the whole list of doubles. Each row's sum, over the cells that were loaded
// non-zero, is taken in an array beside the list and subtracted once; it is never skipped (docs/DIFFERENCES.md).
ghost use Rattle.std.specs.Prelude.{◌≡◌, true, ◌+◌, ◌≤◌, ◌<◌, length};
ghost use Rattle.storage.specs.Runs.{start, dense};
ghost use Rattle.storage.specs.Placed.{Lies, Squares, as_columns, block_of};
ghost use Rattle.schur.specs.rank_diagonal.Diagonal.{subtracted_diagonal};
ghost use Rattle.schur.specs.rank_diagonal.Rows.{plus_square, Zeros, Summed, Added};

use block_runs::runs;
use storage::Block;

// y plus the square of v, unless the loaded cell is ±0.
pub fn plus_square(cell: f64, v: f64, y: f64) -> f64
    ensures { result ≡ plus_square true cell v y }
{
    if cell == 0.0 {
        return y;
    }
    y + v * v
}

// The sums of the rows of the dense block a with its column x: its working cells start at p, its loaded ones at q.
fn add_column(sums: &mut [f64], doubles: &[f64], a: Block, src: usize, x: usize, p: usize, q: usize)
    requires { (a.rows ≤ length sums.old) × (x < a.cols) × (p ≡ a.at + start (dense a.rows) x) × (q ≡ src + start (dense a.rows) x) × Lies (length doubles.now) (as_columns a) × Lies (length doubles.now) (as_columns (block_of src a.rows a.cols)) }
    ensures { Added (as_columns a) src doubles.now 0 a.rows x sums.old sums.new }
{
    runs::change(
        sums,
        0,
        0,
        a.rows,
        |r, y| plus_square(doubles[q + r], doubles[p + r], y),
    );
}

// The sums of the rows of the dense block a, which was loaded from src.
fn sum_columns(sums: &mut [f64], doubles: &[f64], a: Block, src: usize)
    requires rows_in_bounds { (a.rows ≤ length sums.old) × Lies (length doubles.now) (as_columns a) × Lies (length doubles.now) (as_columns (block_of src a.rows a.cols)) }
    requires zeros { Zeros a.rows sums.old }
    ensures { Summed (as_columns a) src doubles.now 0 a.rows a.cols sums.new }
{
    let mut p = a.at;
    let mut q = src;
    for x in 0..a.cols {
        add_column(sums, doubles, a, src, x, p, q);
        p += a.rows;
        q += a.rows;
    }
}

// S of the diagonal t, with a dense cross block a that was loaded from src.
pub fn rank_sub_diagonal(doubles: &mut [f64], t: Block, a: Block, src: usize)
    requires { (t.rows ≤ 316) × Squares (length doubles.old) as_columns t a src }
    ensures { doubles.new ≡ subtracted_diagonal as_columns t a src doubles.old }
{
    let mut sums = [0.0; 316];
    sum_columns(&mut sums, doubles, a, src);
    runs::subtract(doubles, t.at, t.at, t.rows, &sums);
}
