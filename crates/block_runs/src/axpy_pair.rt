// Two lists of sums that take the same columns, each with factors of its own: a column is loaded once for both.
// Each sum keeps its own order, as `along` has it.
ghost use Rattle.std.specs.Prelude.{◌≡◌, ◌+◌, ◌≤◌, ◌<◌, length};
ghost use Rattle.storage.specs.Shape.{columns, size_of};
ghost use Rattle.rules.specs.Arithmetic.{ieee};
ghost use Rattle.block_runs.specs.blocks.Blocks.{block};
ghost use Rattle.block_runs.specs.axpy.Axpy.{at, run, along, products};

use crate::axpy;

// n sums of either list with N products more, each list with factors of its own.
fn add_pair<const N: usize>(
    acc: &mut [f64],
    acc2: &mut [f64],
    n: usize,
    doubles: &[f64],
    p: usize,
    rows: usize,
    f: &[f64; N],
    g: &[f64; N],
)
    requires { (n ≤ rows) × (n ≤ length acc.old) × (n ≤ length acc2.old) × (p + size_of (columns rows N) ≤ length doubles.now) }
    ensures acc_after { acc.new ≡ run 0 n (λ i. along ieee.plus (at acc.old i) (block p (columns rows N) doubles.now i) (at f.now) N) acc.old }
    ensures acc2_after { acc2.new ≡ run 0 n (λ i. along ieee.plus (at acc2.old i) (block p (columns rows N) doubles.now i) (at g.now) N) acc2.old }
{
    for i in 0..n {
        let s = axpy::with_products(acc[i], doubles, p, rows, i, f);
        let t = axpy::with_products(acc2[i], doubles, p, rows, i, g);
        acc[i] = s;
        acc2[i] = t;
    }
}

// The products of N columns, which are `rows` and `step` apart: the second list has the next row of factors.
fn add_columns_pair<const N: usize>(
    acc: &mut [f64],
    acc2: &mut [f64],
    n: usize,
    doubles: &[f64],
    p: usize,
    rows: usize,
    v: &[f64],
    q: usize,
    step: usize,
    r: usize,
)
    requires { (N ≤ 4) × (n ≤ rows) × (n ≤ length acc.old) × (n ≤ length acc2.old) × (r + 1 < step) × (p + size_of (columns rows N) ≤ length doubles.now) × (q + size_of (columns step N) ≤ length v.now) }
    ensures acc_after { acc.new ≡ products ieee.plus acc.old n doubles.now p rows v.now q step r N }
    ensures acc2_after { acc2.new ≡ products ieee.plus acc2.old n doubles.now p rows v.now q step (r + 1) N }
{
    let f = axpy::factors::<N>(v, q, step, r, false);
    let g = axpy::factors::<N>(v, q, step, r + 1, false);
    add_pair(acc, acc2, n, doubles, p, rows, &f, &g);
}

// n sums of either list with their products, N columns at a time, while there are as many: of how many columns.
fn add_groups_pair<const N: usize>(
    acc: &mut [f64],
    acc2: &mut [f64],
    n: usize,
    doubles: &[f64],
    a: usize,
    rows: usize,
    v: &[f64],
    b: usize,
    step: usize,
    r: usize,
    inner: usize,
) -> usize
    requires { (0 < N) × (N ≤ 4) × (n ≤ rows) × (n ≤ length acc.old) × (n ≤ length acc2.old) × (r + 1 < step) × (a + size_of (columns rows inner) ≤ length doubles.now) × (b + size_of (columns step inner) ≤ length v.now) }
    ensures result_value { (result ≤ inner) × (inner < result + N) }
    ensures acc_after { acc.new ≡ products ieee.plus acc.old n doubles.now a rows v.now b step r result }
    ensures acc2_after { acc2.new ≡ products ieee.plus acc2.old n doubles.now a rows v.now b step (r + 1) result }
{
    let mut p = a;
    let mut q = b;
    for k in 0..inner / N {
        add_columns_pair::<N>(acc, acc2, n, doubles, p, rows, v, q, step, r);
        p += N * rows;
        q += N * step;
    }
    inner / N * N
}

// n sums of either list, each with the products of row i of block a of `doubles` and of row r, or row r + 1, of block b of v, by rising inner index.
pub fn add_products_pair(
    acc: &mut [f64],
    acc2: &mut [f64],
    n: usize,
    doubles: &[f64],
    a: usize,
    rows: usize,
    v: &[f64],
    b: usize,
    step: usize,
    r: usize,
    inner: usize,
)
    requires { (n ≤ rows) × (n ≤ length acc.old) × (n ≤ length acc2.old) × (r + 1 < step) × (a + size_of (columns rows inner) ≤ length doubles.now) × (b + size_of (columns step inner) ≤ length v.now) }
    ensures acc_after { acc.new ≡ products ieee.plus acc.old n doubles.now a rows v.now b step r inner }
    ensures acc2_after { acc2.new ≡ products ieee.plus acc2.old n doubles.now a rows v.now b step (r + 1) inner }
{
    let x = add_groups_pair::<4>(acc, acc2, n, doubles, a, rows, v, b, step, r, inner);
    let p = a + x * rows;
    let q = b + x * step;
    add_groups_pair::<1>(acc, acc2, n, doubles, p, rows, v, q, step, r, inner - x);
}
