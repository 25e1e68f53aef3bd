// Begin's scaling of cross blocks and fixed rows (document 01, Record 4; the Rust's `assign_scaled`, `scale`), on the whole list of doubles.
ghost use Rattle.std.specs.Prelude.{◌≡◌, ◌⊎◌, ◌+◌, ◌≤◌, length};
ghost use Rattle.block_runs.specs.blocks.Blocks.{EachShape};
ghost use Rattle.cross_block.specs.Blocks.{scaled_twice, scaled_once};

// Begin, a cross block of n doubles: the loaded ones times theta of the column block, then times theta of the row block.
pub fn scale_twice(doubles: &mut [f64], off: usize, src: usize, n: usize, column: f64, row: f64)
    requires n_in_bounds { (off + n ≤ length doubles.old) × (src + n ≤ length doubles.old) }
    requires apart { (off + n ≤ src) ⊎ (src + n ≤ off) }
    ensures { EachShape n (λ s. doubles.new ≡ scaled_twice s off src column row doubles.old) }
{
    for i in 0..n {
        doubles[off + i] = doubles[src + i] * column * row;
    }
}

// Begin, fixed rows of n doubles: the loaded ones times theta of the column block.
pub fn scale_once(doubles: &mut [f64], off: usize, src: usize, n: usize, t: f64)
    requires n_in_bounds { (off + n ≤ length doubles.old) × (src + n ≤ length doubles.old) }
    requires apart { (off + n ≤ src) ⊎ (src + n ≤ off) }
    ensures { EachShape n (λ s. doubles.new ≡ scaled_once s off src t doubles.old) }
{
    for i in 0..n {
        doubles[off + i] = doubles[src + i] * t;
    }
}
