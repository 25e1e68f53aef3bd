// The loops over one run of doubles that the steps and solves on dense blocks are made of: a vector plus or less multiples of others (axpy).
// Neighbouring cells belong to different sums, so the loops come out packed while each sum keeps its own order.
ghost use Rattle.std.specs.Prelude.{◌≡◌, ℕ, ◌+◌, ◌≤◌, ◌<◌, length};
ghost use Rattle.storage.specs.Shape.{columns, size_of};
ghost use Rattle.rules.specs.Arithmetic.{ieee};
ghost use Rattle.block_runs.specs.blocks.Blocks.{block};
ghost use Rattle.block_runs.specs.axpy.Axpy.{at, run, along, products, add_or_subtract, signed_of};

// The factor whose product is added where the product with x is to be subtracted.
fn signed(x: f64, subtract: bool) -> f64
    ensures { result ≡ signed_of subtract x }
{
    if subtract {
        return -x;
    }
    x
}

// The sum s with N products more, one by one: of cell i of N columns that are `rows` apart, each with its factor.
pub fn with_products<const N: usize>(
    s: f64,
    doubles: &[f64],
    p: usize,
    rows: usize,
    i: usize,
    factors: &[f64; N],
) -> f64
    requires { (i < rows) × (p + size_of (columns rows N) ≤ length doubles.now) }
    ensures { result ≡ along ieee.plus s (block p (columns rows N) doubles.now i) (at factors.now) N }
{
    let mut sum = s;
    for j in 0..N {
        sum = sum + doubles[p + j * rows + i] * factors[j];
    }
    sum
}

// n sums with those products.
fn add<const N: usize>(
    acc: &mut [f64],
    n: usize,
    doubles: &[f64],
    p: usize,
    rows: usize,
    factors: &[f64; N],
)
    requires { (n ≤ rows) × (n ≤ length acc.old) × (p + size_of (columns rows N) ≤ length doubles.now) }
    ensures { acc.new ≡ run 0 n (λ i. along ieee.plus (at acc.old i) (block p (columns rows N) doubles.now i) (at factors.now) N) acc.old }
{
    for i in 0..n {
        acc[i] = with_products(acc[i], doubles, p, rows, i, factors);
    }
}

// The factors of N columns: row r of the columns of v that are `step` apart.
pub fn factors<const N: usize>(
    v: &[f64],
    q: usize,
    step: usize,
    r: usize,
    subtract: bool,
) -> [f64; N]
    requires { (N ≤ 4) × (r < step) × (q + size_of (columns step N) ≤ length v.now) }
    ensures { (j : ℕ) → j < N → at result j ≡ signed_of subtract (block q (columns step N) v.now r j) }
{
    let mut f = [0.0; N];
    for j in 0..N {
        f[j] = signed(v[q + j * step + r], subtract);
    }
    f
}

// The products of N columns, which are `rows` and `step` apart.
fn add_columns<const N: usize>(
    acc: &mut [f64],
    n: usize,
    doubles: &[f64],
    p: usize,
    rows: usize,
    v: &[f64],
    q: usize,
    step: usize,
    r: usize,
    subtract: bool,
)
    requires { (N ≤ 4) × (n ≤ rows) × (n ≤ length acc.old) × (r < step) × (p + size_of (columns rows N) ≤ length doubles.now) × (q + size_of (columns step N) ≤ length v.now) }
    ensures { acc.new ≡ products (add_or_subtract subtract) acc.old n doubles.now p rows v.now q step r N }
{
    let f = factors::<N>(v, q, step, r, subtract);
    add(acc, n, doubles, p, rows, &f);
}

// n sums with their products, N columns at a time, while there are as many: of how many columns.
pub fn add_groups<const N: usize>(
    acc: &mut [f64],
    n: usize,
    doubles: &[f64],
    a: usize,
    rows: usize,
    v: &[f64],
    b: usize,
    step: usize,
    r: usize,
    inner: usize,
    subtract: bool,
) -> usize
    requires { (0 < N) × (N ≤ 4) × (n ≤ rows) × (n ≤ length acc.old) × (r < step) × (a + size_of (columns rows inner) ≤ length doubles.now) × (b + size_of (columns step inner) ≤ length v.now) }
    ensures result_value { (result ≤ inner) × (inner < result + N) }
    ensures acc_after { acc.new ≡ products (add_or_subtract subtract) acc.old n doubles.now a rows v.now b step r result }
{
    let mut p = a;
    let mut q = b;
    for k in 0..inner / N {
        add_columns::<N>(acc, n, doubles, p, rows, v, q, step, r, subtract);
        p += N * rows;
        q += N * step;
    }
    inner / N * N
}
