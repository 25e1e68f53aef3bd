// S of a diagonal by a sparse cross block (document 01, Record 4; the Rust's `rank_sub_diagonal`), on the whole list of doubles.
ghost use Rattle.std.specs.Prelude.{◌≡◌, ◌+◌, ◌≤◌, ◌<◌, length};
ghost use Rattle.storage.specs.Placed.{Squares, as_entries};
ghost use Rattle.block_runs.specs.blocks.Blocks.{row_from};
ghost use Rattle.schur.specs.rank_diagonal.Diagonal.{subtracted_diagonal};
ghost use Rattle.schur.specs.rank_diagonal.Rows.{Zeros, Summed, AddedEntry, subtract_rows};

use crate::rank_diagonal;
use block_runs::runs;
use storage::Block;

// The sums of m rows, row `from` first, with an entry of the sparse block that may lie in one of them.
fn add_entry(sums: &mut [f64], from: usize, m: usize, row: usize, cell: f64, v: f64)
    requires { m ≤ length sums.old }
    ensures { AddedEntry from m row cell v sums.old sums.new }
{
    if row < from {
        return;
    }
    let i = row - from;
    if i >= m {
        return;
    }
    let y = sums[i];
    sums[i] = rank_diagonal::plus_square(cell, v, y);
}

// The sums of m rows of the sparse block a, which was loaded from src, row `from` first.
fn sum_entries(
    sums: &mut [f64],
    from: usize,
    m: usize,
    doubles: &[f64],
    a: Block,
    src: usize,
    heading: &[u32],
    first: usize,
)
    requires m_in_bounds { (m ≤ length sums.old) × (a.at + a.cols ≤ length doubles.now) × (src + a.cols ≤ length doubles.now) × (first + a.cols ≤ length heading.now) }
    requires zeros { Zeros m sums.old }
    ensures { Summed (as_entries (row_from heading.now first) a) src doubles.now from m a.cols sums.new }
{
    for x in 0..a.cols {
        let row = heading[first + x] as usize;
        let cell = doubles[src + x];
        let v = doubles[a.at + x];
        add_entry(sums, from, m, row, cell, v);
    }
}

// The m pivots of the diagonal t from row `from` on, at most 8,192, less their sums over the sparse block a. The target is lent as the part that starts
// at its own offset.
fn subtract_rows(
    doubles: &mut [f64],
    t: Block,
    from: usize,
    m: usize,
    a: Block,
    src: usize,
    heading: &[u32],
    first: usize,
)
    requires { (m ≤ 8192) × (t.at + from + m ≤ length doubles.old) × (a.at + a.cols ≤ length doubles.old) × (src + a.cols ≤ length doubles.old) × (first + a.cols ≤ length heading.now) }
    ensures { doubles.new ≡ subtract_rows t (as_entries (row_from heading.now first) a) src from m doubles.old }
{
    let mut sums = [0.0; 8192];
    sum_entries(&mut sums, from, m, doubles, a, src, heading, first);
    runs::subtract(doubles, t.at, t.at + from, m, &sums);
}

// How many rows are summed at a time, of those that are left.
fn chunk(left: usize) -> usize
    ensures { (result ≤ left) × (result ≤ 8192) × (0 < left → 0 < result) }
{
    if left < 8192 {
        return left;
    }
    8192
}

// S of the diagonal t, with a sparse cross block a that was loaded from src.
pub fn rank_sub_diagonal_sparse(
    doubles: &mut [f64],
    t: Block,
    a: Block,
    src: usize,
    heading: &[u32],
    first: usize,
)
    requires { Squares (length doubles.old) (as_entries (row_from heading.now first)) t a src × (first + a.cols ≤ length heading.now) }
    ensures { doubles.new ≡ subtracted_diagonal (as_entries (row_from heading.now first)) t a src doubles.old }
{
    let mut from = 0;
    // Each turn takes as many as `chunk` says: no plainer as a `for`.
    while from < t.rows {
        let m = chunk(t.rows - from);
        subtract_rows(doubles, t, from, m, a, src, heading, first);
        from += m;
    }
}
