// S of the last triangle (document 01, Record 4; the Rust's `schur_sub_xy_xy`), product by product, on the whole list of doubles.
ghost use Rattle.std.specs.Prelude.{◌≡◌, ◌+◌, ◌≤◌, ◌<◌, length};
ghost use Rattle.storage.specs.Placed.{Lies, Product, as_columns, as_triangle};
ghost use Rattle.schur.specs.Schur.{subtracted_last, subtract_products};

use block_runs::{axpy_products, runs};
use storage::Block;

// One run of the triangle at `off` less its products, one by one. The triangle is lent as the part that starts at its own offset.
fn subtract_last_run(
    doubles: &mut [f64],
    acc: &mut [f64],
    off: usize,
    to: usize,
    n: usize,
    a: Block,
    b: Block,
    r: usize,
)
    requires { (n ≤ a.rows) × (n ≤ length acc.old) × (r < b.rows) × (b.cols ≡ a.cols) × (off ≤ to) × (to + n ≤ length doubles.old) × Lies (length doubles.old) (as_columns a) × Lies (length doubles.old) (as_columns b) }
    ensures { doubles.new ≡ subtract_products to n a b r doubles.old }
{
    runs::copy(acc, 0, n, doubles, to);
    axpy_products::subtract_products(
        acc, n, doubles, a.at, a.rows, doubles, b.at, b.rows, r, a.cols,
    );
    runs::change(doubles, off, to, n, |i, _| acc[i]);
}

// S(k,k,h) of the triangle t: less block a times itself transposed, product by product.
pub fn subtract_last(doubles: &mut [f64], t: Block, a: Block)
    requires { (t.rows ≤ 316) × Product (length doubles.old) as_triangle as_columns t a a }
    ensures { doubles.new ≡ subtracted_last t a doubles.old }
{
    let mut acc = [0.0; 316];
    let mut to = t.at;
    for r in 0..t.rows {
        subtract_last_run(doubles, &mut acc, t.at, to, r + 1, a, a, r);
        to += r + 1;
    }
}
