// Sums of products side by side, some columns at a time: each sum by rising index, as `along` has it.
ghost use Rattle.std.specs.Prelude.{◌≡◌, ◌+◌, ◌≤◌, ◌<◌, length};
ghost use Rattle.storage.specs.Shape.{columns, size_of};
ghost use Rattle.rules.specs.Arithmetic.{ieee};
ghost use Rattle.block_runs.specs.axpy.Axpy.{add_or_subtract, products};

use crate::axpy;

// n sums, each with the products of row i of block a of `doubles` and row r of block b of v, added or subtracted one by one by rising inner index.
fn apply_products(
    acc: &mut [f64],
    n: usize,
    doubles: &[f64],
    a: usize,
    rows: usize,
    v: &[f64],
    b: usize,
    step: usize,
    r: usize,
    inner: usize,
    subtract: bool,
)
    requires { (n ≤ rows) × (n ≤ length acc.old) × (r < step) × (a + size_of (columns rows inner) ≤ length doubles.now) × (b + size_of (columns step inner) ≤ length v.now) }
    ensures { acc.new ≡ products (add_or_subtract subtract) acc.old n doubles.now a rows v.now b step r inner }
{
    let x = axpy::add_groups::<4>(acc, n, doubles, a, rows, v, b, step, r, inner, subtract);
    let p = a + x * rows;
    let q = b + x * step;
    axpy::add_groups::<1>(acc, n, doubles, p, rows, v, q, step, r, inner - x, subtract);
}

// n sums, each with the products of row i of block a of `doubles` and row r of block b of v.
pub fn add_products(
    acc: &mut [f64],
    n: usize,
    doubles: &[f64],
    a: usize,
    rows: usize,
    v: &[f64],
    b: usize,
    step: usize,
    r: usize,
    inner: usize,
)
    requires { (n ≤ rows) × (n ≤ length acc.old) × (r < step) × (a + size_of (columns rows inner) ≤ length doubles.now) × (b + size_of (columns step inner) ≤ length v.now) }
    ensures { acc.new ≡ products ieee.plus acc.old n doubles.now a rows v.now b step r inner }
{
    apply_products(acc, n, doubles, a, rows, v, b, step, r, inner, false);
}

// n doubles, each less the products of row i of block a of `doubles` and row r of block b of v.
pub fn subtract_products(
    acc: &mut [f64],
    n: usize,
    doubles: &[f64],
    a: usize,
    rows: usize,
    v: &[f64],
    b: usize,
    step: usize,
    r: usize,
    inner: usize,
)
    requires { (n ≤ rows) × (n ≤ length acc.old) × (r < step) × (a + size_of (columns rows inner) ≤ length doubles.now) × (b + size_of (columns step inner) ≤ length v.now) }
    ensures { acc.new ≡ products ieee.minus acc.old n doubles.now a rows v.now b step r inner }
{
    apply_products(acc, n, doubles, a, rows, v, b, step, r, inner, true);
}
