// S of fixed rows with a sparse block of one entry a column (document 01, Record 4; the Rust's `schur_sub_xy_re`), on the whole list of doubles.
ghost use Rattle.std.specs.Prelude.{◌≡◌, ◌+◌, ◌≤◌, length};
ghost use Rattle.storage.specs.Placed.{Product, as_columns, as_entries};
ghost use Rattle.block_runs.specs.blocks.Blocks.{row_from, RowsBelow};
ghost use Rattle.schur.specs.Schur.{subtracted_entries, subtract_column};

use block_runs::runs;
use storage::Block;

// A column of `rows` doubles, from `to` on in the block at `off`, less f times the one at ax. The block is lent as the part that starts at its own
// offset.
fn subtract_column(
    doubles: &mut [f64],
    acc: &mut [f64],
    off: usize,
    to: usize,
    rows: usize,
    ax: usize,
    f: f64,
)
    requires { (rows ≤ length acc.old) × (off + to + rows ≤ length doubles.old) × (ax + rows ≤ length doubles.old) }
    ensures { doubles.new ≡ subtract_column (off + to) rows ax f doubles.old }
{
    runs::copy(acc, 0, rows, doubles, ax);
    runs::change(doubles, off, off + to, rows, |i, x| x - acc[i] * f);
}

// S(k,1,0) of the fixed rows t with a sparse block v: product by product.
pub fn subtract_sparse(
    doubles: &mut [f64],
    t: Block,
    a: Block,
    v: Block,
    heading: &[u32],
    first: usize,
)
    requires { (t.rows ≤ 316) × Product (length doubles.old) as_columns (as_entries (row_from heading.now first)) t a v × (first + v.cols ≤ length heading.now) × RowsBelow heading.now first v.cols t.cols }
    ensures { doubles.new ≡ subtracted_entries (row_from heading.now first) t a v doubles.old }
{
    let mut acc = [0.0; 316];
    let mut ax = a.at;
    for x in 0..a.cols {
        let c = heading[first + x] as usize;
        let f = doubles[v.at + x];
        subtract_column(doubles, &mut acc, t.at, c * t.rows, t.rows, ax, f);
        ax += t.rows;
    }
}
