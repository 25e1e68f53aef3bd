// Sums of products of columns of a dense block with a vector, side by side (document 01, Record 7).
ghost use Rattle.std.specs.Prelude.{◌≡◌, ℕ, ◌+◌, ◌≤◌, ◌<◌, length};
ghost use Rattle.storage.specs.Runs.{start, dense};
ghost use Rattle.storage.specs.Shape.{columns, size_of};
ghost use Rattle.block_runs.specs.axpy.Axpy.{at};
ghost use Rattle.cross_matvec.specs.Products.{column_sum};

// The N columns from p on, each times the vector at z: a sum waits for its last product, so N sums run side by side.
pub fn sums<const N: usize>(doubles: &[f64], p: usize, rows: usize, v: &[f64], z: usize) -> [f64; N]
    requires { (N ≤ 4) × (p + size_of (columns rows N) ≤ length doubles.now) × (z + rows ≤ length v.now) }
    ensures { (j : ℕ) → j < N → at result j ≡ column_sum doubles.now (p + start (dense rows) j) v.now z rows }
{
    let mut sums = [0.0; N];
    for r in 0..rows {
        let f = v[z + r];
        for j in 0..N {
            sums[j] = sums[j] + doubles[p + j * rows + r] * f;
        }
    }
    sums
}

// The column at p times the vector at z.
pub fn one(doubles: &[f64], p: usize, rows: usize, v: &[f64], z: usize) -> f64
    requires { (p + rows ≤ length doubles.now) × (z + rows ≤ length v.now) }
    ensures { result ≡ column_sum doubles.now p v.now z rows }
{
    sums::<1>(doubles, p, rows, v, z)[0]
}
