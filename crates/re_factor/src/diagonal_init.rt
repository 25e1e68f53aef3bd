// Begin on a diagonal block (document 01, Record 4; the Rust's `diagonal_init`, `reset_diag`), on the whole list of doubles.
ghost use Rattle.std.specs.Prelude.{◌≡◌, length};
ghost use Rattle.storage.specs.Placed.{as_diagonal};
ghost use Rattle.re_factor.specs.Factor.{loaded_of, Begins, scaled};

use storage::Block;

// Begin on a diagonal b, whose pivots were loaded from src on.
pub fn init_diagonal(doubles: &mut [f64], b: Block, src: usize, t: f64)
    requires { Begins (length doubles.old) (as_diagonal b) (loaded_of b src) }
    ensures { doubles.new ≡ scaled (as_diagonal b) (loaded_of b src) t doubles.old }
{
    for r in 0..b.rows {
        doubles[b.at + r] = t * t * doubles[src + r] + 1.0;
    }
}
