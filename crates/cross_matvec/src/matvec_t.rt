// The transpose of a dense block times a vector (document 01, Record 7; the Rust's `cross_matvec_t_sub`), as the root has the block itself: the block
// lies in a list of its own, or in the vector's (X'X less V'W).
ghost use Rattle.std.specs.Prelude.{◌≡◌, ◌+◌, ◌≤◌, ◌<◌, ◌^◌, length};
ghost use Rattle.storage.specs.Shape.{columns, size_of};
ghost use Rattle.storage.specs.Placed.{Lies, as_columns};
ghost use Rattle.cross_matvec.specs.Products.{Clear, ClearIn, Sides, held, subtracted_product_t, subtract_columns};

use crate::column_sums;
use block_runs::runs;
use storage::Block;

// N entries from `to` on less the products of the N columns from p on with the vector at z. The columns lie in `doubles`, or in v where there is none.
fn subtract<const N: usize>(
    v: &mut [f64],
    to: usize,
    z: usize,
    doubles: Option<&[f64]>,
    p: usize,
    rows: usize,
)
    requires { (N ≤ 4) × (to + N ≤ length v.old) × (z + rows ≤ length v.old) × (p + size_of (columns rows N) ≤ length (held doubles v.old)) }
    ensures { v.new ≡ subtract_columns to N p rows z (held doubles.entry v.old) v.old }
{
    let sums = column_sums::sums::<N>(doubles.unwrap_or(v), p, rows, v, z);
    runs::subtract(v, to, to, N, &sums);
}

// Some of the columns that are left, which are block a, four at once or one: how many.
fn subtract_some(v: &mut [f64], to: usize, z: usize, doubles: Option<&[f64]>, a: Block) -> usize
    requires { (0 < a.cols) × (to + a.cols ≤ length v.old) × (z + a.rows ≤ length v.old) × Lies (length (held doubles v.old)) (as_columns a) }
    ensures { (0 < result) × (result ≤ a.cols) × (v.new ≡ subtract_columns to result a.at a.rows z (held doubles.entry v.old) v.old) }
{
    if a.cols < 4 {
        subtract::<1>(v, to, z, doubles, a.at, a.rows);
        return 1;
    }
    subtract::<4>(v, to, z, doubles, a.at, a.rows);
    4
}

// The vector at `to` less the transpose of a dense block, which lies in `doubles`, or in v where there is none, times the vector at z.
fn subtract_product(v: &mut [f64], to: usize, z: usize, doubles: Option<&[f64]>, a: Block)
    requires places { Sides (length v.old) z to a × Lies (length (held doubles v.old)) (as_columns a) × ClearIn doubles to a }
    requires short { a.at + size_of (columns a.rows a.cols) < 2 ^ 63 }
    ensures { v.new ≡ subtracted_product_t to z a (held doubles.entry v.old) v.old }
{
    let mut c = 0;
    let mut p = a.at;
    // Each turn takes as many as `subtract_some` says: no plainer as a `for`.
    while c < a.cols {
        let left = Block {
            at: p,
            rows: a.rows,
            cols: a.cols - c,
        };
        let k = subtract_some(v, to + c, z, doubles, left);
        p += k * a.rows;
        c += k;
    }
}

// Going backward: the vector at `to` less the transpose of a dense block times the vector at z.
pub fn matvec_t_sub(v: &mut [f64], to: usize, z: usize, doubles: &[f64], a: Block)
    requires { Sides (length v.old) z to a × Lies (length doubles.now) (as_columns a) }
    ensures { v.new ≡ subtracted_product_t to z a doubles.now v.old }
{
    subtract_product(v, to, z, Some(doubles), a);
}

// The same where target, block and vector lie in one list.
pub fn matvec_t_sub_own(v: &mut [f64], to: usize, z: usize, a: Block)
    requires { Sides (length v.old) z to a × Lies (length v.old) (as_columns a) × Clear to a }
    ensures { v.new ≡ subtracted_product_t to z a v.old v.old }
{
    subtract_product(v, to, z, None, a);
}
