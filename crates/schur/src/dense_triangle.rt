// S of a packed triangle by a dense cross block (document 01, Record 4; the Rust's `rank_sub_dense`), on the whole list of doubles.
ghost use Rattle.std.specs.Prelude.{◌≡◌, ◌≤◌, length};
ghost use Rattle.storage.specs.Placed.{Product, as_columns, as_triangle};
ghost use Rattle.schur.specs.Schur.{subtracted_rank};

use storage::Block;

// S of the triangle t: less block a times itself transposed.
pub fn rank_sub(doubles: &mut [f64], t: Block, a: Block)
    requires { (t.rows ≤ 316) × Product (length doubles.old) as_triangle as_columns t a a }
    ensures { doubles.new ≡ subtracted_rank t a doubles.old }
{
    let mut acc = [0.0; 316];
    let mut to = t.at;
    for r in 0..t.rows {
        crate::subtract_run(doubles, &mut acc, t.at, to, r + 1, a, a, r);
        to += r + 1;
    }
}
