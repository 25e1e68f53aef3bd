// A sparse cross block of one entry a column times a vector (document 01, Record 7; the Rust's `cross_matvec_sub`).
ghost use Rattle.std.specs.Prelude.{◌≡◌, ◌<◌, length};
ghost use Rattle.storage.specs.Placed.{Lies, as_entries};
ghost use Rattle.cross_matvec.specs.Products.{HasRows, Sides, row_in, subtracted_sparse_product, subtract_entry};

use storage::Block;

// v[at] less x times e, unless e is ±0.
fn subtract_entry(v: &mut [f64], at: usize, x: f64, e: f64)
    requires { at < length v.old }
    ensures { v.new ≡ subtract_entry at x e v.old }
{
    if e == 0.0 {
        return;
    }
    v[at] = v[at] - x * e;
}

// Going forward: the vector at `to` less a sparse block, the rows of whose entries are in `rows`, times the vector at z, product by product.
pub fn sparse_matvec_sub(
    v: &mut [f64],
    to: usize,
    z: usize,
    doubles: &[f64],
    a: Block,
    rows: &[u32],
)
    requires { Sides (length v.old) to z a × Lies (length doubles.now) (as_entries (row_in rows.now) a) × HasRows rows.now a }
    ensures { v.new ≡ subtracted_sparse_product (row_in rows.now) to z a doubles.now v.old }
{
    for c in 0..a.cols {
        let r = rows[c] as usize;
        let x = doubles[a.at + c];
        let e = v[z + c];
        subtract_entry(v, to + r, x, e);
    }
}
