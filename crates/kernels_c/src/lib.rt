// The kernels under C's conventions, for bench/kernels.rs: each is its kernel, with the kernel's contract.
#![tactic(auto)]

ghost use Rattle.std.specs.Prelude.{◌≡◌, ◌⊎◌, ◌+◌, ◌≤◌, length};
ghost use Rattle.storage.specs.Runs.{start, triangle};
ghost use Rattle.block_runs.specs.blocks.Blocks.{EachShape, row_from, RowsBelow};
ghost use Rattle.storage.specs.Placed.{block_of, as_columns, as_triangle, as_diagonal, as_entries, Lies, Product, Squares};
ghost use Rattle.schur.specs.Schur.{subtracted_dense, subtracted_rank, subtracted_last, subtracted_entries};
ghost use Rattle.cross_block.specs.Blocks.{scaled_twice, ByFactor, divided_columns, solved_rows};
ghost use Rattle.schur.specs.rank_diagonal.Diagonal.{subtracted_diagonal};
ghost use Rattle.cross_matvec.specs.Products.{HasRows, Sides, row_in, subtracted_product, subtracted_product_t, subtracted_sparse_product, subtracted_sparse_product_t};
ghost use Rattle.re_lower.specs.Lower.{logs_of_triangle, logs_of_diagonal, row_solved, back_solved};
ghost use Rattle.kernels_c.specs.Answers.{number_of, TriangleAnswered, DiagonalAnswered};

use cross_block::{divide_columns, scaling};
use cross_matvec::{matvec_t, sparse_matvec, sparse_matvec_t};
use re_lower::{
    RefusedPivot, back_substitution, cholesky, diagonal_chol, pivot_logs, substitution,
};
use schur::{
    dense_triangle, last_triangle, rank_diagonal, rank_diagonal_sparse, schur_dense, sparse_schur,
};
use storage::Block;

// schur::schur_dense::subtract_dense.
#[unsafe(no_mangle)]
pub extern "C" fn husk_subtract_dense(
    doubles: &mut [f64],
    off: usize,
    rows: usize,
    cols: usize,
    a: usize,
    b: usize,
    inner: usize,
)
    requires { (rows ≤ 316) × Product (length doubles.old) as_columns as_columns (block_of off rows cols) (block_of a rows inner) (block_of b cols inner) }
    ensures { doubles.new ≡ subtracted_dense (block_of off rows cols) (block_of a rows inner) (block_of b cols inner) doubles.old }
{
    schur_dense::subtract_dense(
        doubles,
        Block {
            at: off,
            rows,
            cols,
        },
        Block {
            at: a,
            rows,
            cols: inner,
        },
        Block {
            at: b,
            rows: cols,
            cols: inner,
        },
    );
}

// schur::dense_triangle::rank_sub.
#[unsafe(no_mangle)]
pub extern "C" fn husk_rank_sub(
    doubles: &mut [f64],
    off: usize,
    rows: usize,
    a: usize,
    inner: usize,
)
    requires { (rows ≤ 316) × Product (length doubles.old) as_triangle as_columns (block_of off rows rows) (block_of a rows inner) (block_of a rows inner) }
    ensures { doubles.new ≡ subtracted_rank (block_of off rows rows) (block_of a rows inner) doubles.old }
{
    dense_triangle::rank_sub(
        doubles,
        Block {
            at: off,
            rows,
            cols: rows,
        },
        Block {
            at: a,
            rows,
            cols: inner,
        },
    );
}

// schur::last_triangle::subtract_last.
#[unsafe(no_mangle)]
pub extern "C" fn husk_subtract_last(
    doubles: &mut [f64],
    off: usize,
    rows: usize,
    a: usize,
    inner: usize,
)
    requires { (rows ≤ 316) × Product (length doubles.old) as_triangle as_columns (block_of off rows rows) (block_of a rows inner) (block_of a rows inner) }
    ensures { doubles.new ≡ subtracted_last (block_of off rows rows) (block_of a rows inner) doubles.old }
{
    last_triangle::subtract_last(
        doubles,
        Block {
            at: off,
            rows,
            cols: rows,
        },
        Block {
            at: a,
            rows,
            cols: inner,
        },
    );
}

// schur::sparse_schur::subtract_sparse.
#[unsafe(no_mangle)]
pub extern "C" fn husk_subtract_sparse(
    doubles: &mut [f64],
    off: usize,
    rows: usize,
    cols: usize,
    a: usize,
    v: usize,
    inner: usize,
    heading: &[u32],
    first: usize,
)
    requires { (rows ≤ 316) × Product (length doubles.old) as_columns (as_entries (row_from heading.now first)) (block_of off rows cols) (block_of a rows inner) (block_of v cols inner) × (first + inner ≤ length heading.now) × RowsBelow heading.now first inner cols }
    ensures { doubles.new ≡ subtracted_entries (row_from heading.now first) (block_of off rows cols) (block_of a rows inner) (block_of v cols inner) doubles.old }
{
    sparse_schur::subtract_sparse(
        doubles,
        Block {
            at: off,
            rows,
            cols,
        },
        Block {
            at: a,
            rows,
            cols: inner,
        },
        Block {
            at: v,
            rows: cols,
            cols: inner,
        },
        heading,
        first,
    );
}

// cross_block::divide_columns::divide_columns.
#[unsafe(no_mangle)]
pub extern "C" fn husk_divide_columns(
    doubles: &mut [f64],
    off: usize,
    rows: usize,
    cols: usize,
    pivots: usize,
)
    requires { ByFactor (length doubles.old) as_diagonal (block_of off rows cols) (block_of pivots cols cols) }
    ensures { doubles.new ≡ divided_columns (block_of off rows cols) (block_of pivots cols cols) doubles.old }
{
    divide_columns::divide_columns(
        doubles,
        Block {
            at: off,
            rows,
            cols,
        },
        Block {
            at: pivots,
            rows: cols,
            cols,
        },
    );
}

// cross_block::solve_rows.
#[unsafe(no_mangle)]
pub extern "C" fn husk_solve_rows(
    doubles: &mut [f64],
    off: usize,
    rows: usize,
    cols: usize,
    l: usize,
)
    requires { (rows ≤ 316) × ByFactor (length doubles.old) as_triangle (block_of off rows cols) (block_of l cols cols) }
    ensures { doubles.new ≡ solved_rows (block_of off rows cols) (block_of l cols cols) doubles.old }
{
    cross_block::solve_rows(
        doubles,
        Block {
            at: off,
            rows,
            cols,
        },
        Block {
            at: l,
            rows: cols,
            cols,
        },
    );
}

// cross_block::scaling::scale_twice.
#[unsafe(no_mangle)]
pub extern "C" fn husk_scale_twice(
    doubles: &mut [f64],
    off: usize,
    src: usize,
    n: usize,
    column: f64,
    row: f64,
)
    requires n_in_bounds { (off + n ≤ length doubles.old) × (src + n ≤ length doubles.old) }
    requires apart { (off + n ≤ src) ⊎ (src + n ≤ off) }
    ensures { EachShape n (λ s. doubles.new ≡ scaled_twice s off src column row doubles.old) }
{
    scaling::scale_twice(doubles, off, src, n, column, row);
}

// schur::rank_diagonal::rank_sub_diagonal.
#[unsafe(no_mangle)]
pub extern "C" fn husk_rank_sub_diagonal(
    doubles: &mut [f64],
    off: usize,
    n: usize,
    a: usize,
    inner: usize,
    src: usize,
)
    requires { (n ≤ 316) × Squares (length doubles.old) as_columns (block_of off n n) (block_of a n inner) src }
    ensures { doubles.new ≡ subtracted_diagonal as_columns (block_of off n n) (block_of a n inner) src doubles.old }
{
    rank_diagonal::rank_sub_diagonal(
        doubles,
        Block {
            at: off,
            rows: n,
            cols: n,
        },
        Block {
            at: a,
            rows: n,
            cols: inner,
        },
        src,
    );
}

// schur::rank_diagonal_sparse::rank_sub_diagonal_sparse.
#[unsafe(no_mangle)]
pub extern "C" fn husk_rank_sub_diagonal_sparse(
    doubles: &mut [f64],
    off: usize,
    n: usize,
    a: usize,
    inner: usize,
    src: usize,
    heading: &[u32],
    first: usize,
)
    requires { Squares (length doubles.old) (as_entries (row_from heading.now first)) (block_of off n n) (block_of a n inner) src × (first + inner ≤ length heading.now) }
    ensures { doubles.new ≡ subtracted_diagonal (as_entries (row_from heading.now first)) (block_of off n n) (block_of a n inner) src doubles.old }
{
    rank_diagonal_sparse::rank_sub_diagonal_sparse(
        doubles,
        Block {
            at: off,
            rows: n,
            cols: n,
        },
        Block {
            at: a,
            rows: n,
            cols: inner,
        },
        src,
        heading,
        first,
    );
}

// cross_matvec::matvec_sub.
#[unsafe(no_mangle)]
pub extern "C" fn husk_matvec_sub(
    v: &mut [f64],
    off: usize,
    rows: usize,
    z: usize,
    cols: usize,
    doubles: &[f64],
    a: usize,
)
    requires { (rows ≤ 316) × Sides (length v.old) off z (block_of a rows cols) × Lies (length doubles.now) (as_columns (block_of a rows cols)) }
    ensures { v.new ≡ subtracted_product off z (block_of a rows cols) doubles.now v.old }
{
    cross_matvec::matvec_sub(v, off, z, doubles, Block { at: a, rows, cols });
}

// cross_matvec::matvec_t::matvec_t_sub.
#[unsafe(no_mangle)]
pub extern "C" fn husk_matvec_t_sub(
    v: &mut [f64],
    off: usize,
    cols: usize,
    z: usize,
    rows: usize,
    doubles: &[f64],
    a: usize,
)
    requires { Sides (length v.old) z off (block_of a rows cols) × Lies (length doubles.now) (as_columns (block_of a rows cols)) }
    ensures { v.new ≡ subtracted_product_t off z (block_of a rows cols) doubles.now v.old }
{
    matvec_t::matvec_t_sub(v, off, z, doubles, Block { at: a, rows, cols });
}

// cross_matvec::sparse_matvec::sparse_matvec_sub.
#[unsafe(no_mangle)]
pub extern "C" fn husk_sparse_matvec_sub(
    v: &mut [f64],
    off: usize,
    rows: usize,
    z: usize,
    cols: usize,
    doubles: &[f64],
    x: usize,
    places: &[u32],
)
    requires { Sides (length v.old) off z (block_of x rows cols) × Lies (length doubles.now) (as_entries (row_in places.now) (block_of x rows cols)) × HasRows places.now (block_of x rows cols) }
    ensures { v.new ≡ subtracted_sparse_product (row_in places.now) off z (block_of x rows cols) doubles.now v.old }
{
    sparse_matvec::sparse_matvec_sub(v, off, z, doubles, Block { at: x, rows, cols }, places);
}

// cross_matvec::sparse_matvec_t::sparse_matvec_t_sub.
#[unsafe(no_mangle)]
pub extern "C" fn husk_sparse_matvec_t_sub(
    v: &mut [f64],
    off: usize,
    cols: usize,
    z: usize,
    rows: usize,
    doubles: &[f64],
    x: usize,
    places: &[u32],
)
    requires { Sides (length v.old) z off (block_of x rows cols) × Lies (length doubles.now) (as_entries (row_in places.now) (block_of x rows cols)) × HasRows places.now (block_of x rows cols) }
    ensures { v.new ≡ subtracted_sparse_product_t (row_in places.now) off z (block_of x rows cols) doubles.now v.old }
{
    sparse_matvec_t::sparse_matvec_t_sub(v, off, z, doubles, Block { at: x, rows, cols }, places);
}

// n where every pivot is accepted, else the row of the refused one.
fn number(p: Result<(), RefusedPivot>, n: usize) -> usize
    ensures { result ≡ number_of n p }
{
    match p {
        Ok(()) => n,
        Err(refused) => refused.row,
    }
}

// re_lower::cholesky::chol, its answer as a number.
#[unsafe(no_mangle)]
pub extern "C" fn husk_chol(t: &mut [f64], n: usize) -> usize
    requires { (start triangle n ≤ length t.old) × (n ≤ 316) }
    ensures { TriangleAnswered t.old t.new n result }
{
    number(cholesky::chol(t, n), n)
}

// re_lower::diagonal_chol::chol_diagonal, answered likewise.
#[unsafe(no_mangle)]
pub extern "C" fn husk_chol_diagonal(t: &mut [f64], n: usize) -> usize
    requires { n ≤ length t.old }
    ensures { DiagonalAnswered t.old t.new n result }
{
    number(diagonal_chol::chol_diagonal(t, n), n)
}

// re_lower::pivot_logs::log_pivots.
#[unsafe(no_mangle)]
pub extern "C" fn husk_log_pivots(t: &[f64], n: usize, s: f64) -> f64
    requires { start triangle n ≤ length t.now }
    ensures { result ≡ logs_of_triangle t.now n s }
{
    pivot_logs::log_pivots(t, n, s)
}

// re_lower::pivot_logs::log_diagonal.
#[unsafe(no_mangle)]
pub extern "C" fn husk_log_diagonal(t: &[f64], n: usize, s: f64) -> f64
    requires { n ≤ length t.now }
    ensures { result ≡ logs_of_diagonal t.now n s }
{
    pivot_logs::log_diagonal(t, n, s)
}

// re_lower::substitution::solve_row.
#[unsafe(no_mangle)]
pub extern "C" fn husk_solve_row(t: &mut [f64], l: &[f64], n: usize)
    requires { (n ≤ length t.old) × (start triangle n ≤ length l.now) }
    ensures { t.new ≡ row_solved t.old l.now n }
{
    substitution::solve_row(t, l, n);
}

// re_lower::back_substitution::backward.
#[unsafe(no_mangle)]
pub extern "C" fn husk_backward(t: &mut [f64], l: &[f64], n: usize)
    requires { (n ≤ length t.old) × (start triangle n ≤ length l.now) }
    ensures { t.new ≡ back_solved t.old l.now n }
{
    back_substitution::backward(t, l, n);
}
