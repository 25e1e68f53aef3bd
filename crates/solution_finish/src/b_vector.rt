// b = theta times u, by sheet rows (document 01, Record 7; the Rust's `apply_lambda_to_u`).
ghost use Rattle.std.specs.Prelude.{◌≡◌, ◌<◌, length};
ghost use Rattle.solution_vectors.specs.Vectors.{with_block_at, with_vector};
ghost use Rattle.solution_vectors.specs.result_places.Places.{b_at, result_length_of};
ghost use Rattle.solution_finish.specs.b_vector.Effects.{effect_block, effect_blocks};

use block_places::{block_kinds, sheet_rows};
use cross_block::scaling;
use solution_vectors::lent::Workspace;
use triangular_solves::scaled_row;

// The rows of sorted block j.
fn scale_block(lent: Workspace, v: &mut [f64], j: u64)
    requires { (j < lent.layout.k) × (length v.old ≡ result_length_of lent.layout) }
    ensures { v.new ≡ with_block_at lent.entry.layout (b_at lent.entry.layout) j (effect_block lent.entry.heading.now lent.entry.doubles.now lent.entry.layout v.old j) v.old }
{
    let theta = scaled_row::theta_of(lent, j);
    let to = lent.layout.p as usize + sheet_rows::first_row(lent.layout, j as usize) as usize;
    let from = to + lent.layout.q as usize;
    let n = block_kinds::rows_of(lent.layout, j);
    scaling::scale_once(v, to, from, n, theta);
}

// b, all its rows, from u.
pub fn write_b(lent: Workspace, v: &mut [f64])
    requires { length v.old ≡ result_length_of lent.layout }
    ensures { v.new ≡ with_vector lent.entry.layout (b_at lent.entry.layout) (effect_blocks lent.entry.heading.now lent.entry.doubles.now lent.entry.layout v.old) v.old }
{
    for j in 0..lent.layout.k {
        scale_block(lent, v, j);
    }
}
