// A sparse cross block going backward (document 01, Record 7): sums from 0.0, subtracted once.
ghost use Rattle.std.specs.Prelude.{◌≡◌, ◌+◌, ◌<◌, length};
ghost use Rattle.storage.specs.Placed.{Lies, as_entries};
ghost use Rattle.block_runs.specs.axpy.Axpy.{at};
ghost use Rattle.cross_matvec.specs.Products.{HasRows, Sides, row_in, subtracted_sparse_product_t};

use storage::Block;

// Entry r of the vector at z, read from the part that starts there: one place less to be kept in a loop.
fn value(v: &[f64], z: usize, r: usize) -> f64
    requires { z + r < length v.now }
    ensures { result ≡ at v.now (z + r) }
{
    let part = &v[z..];
    part[r]
}

// Going backward: the vector at `to` less the transpose of a sparse block, the rows of whose entries are in `rows`, times the vector at z.
pub fn sparse_matvec_t_sub(
    v: &mut [f64],
    to: usize,
    z: usize,
    doubles: &[f64],
    a: Block,
    rows: &[u32],
)
    requires { Sides (length v.old) z to a × Lies (length doubles.now) (as_entries (row_in rows.now) a) × HasRows rows.now a }
    ensures { v.new ≡ subtracted_sparse_product_t (row_in rows.now) to z a doubles.now v.old }
{
    for c in 0..a.cols {
        let r = rows[c] as usize;
        let y = value(v, z, r);
        let s = 0.0 + doubles[a.at + c] * y;
        v[to + c] = v[to + c] - s;
    }
}
