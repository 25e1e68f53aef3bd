// Begin on a packed triangle (document 01, Record 4): (t·t)·a + 1 on the diagonal, +0 beside it.
ghost use Rattle.std.specs.Prelude.{◌≡◌, ◌+◌, ◌≤◌, length};
ghost use Rattle.storage.specs.Runs.{tab};
ghost use Rattle.storage.specs.Part.{store};
ghost use Rattle.storage.specs.Placed.{as_triangle};
ghost use Rattle.rules.specs.Arithmetic.{ieee};
ghost use Rattle.re_factor.specs.Factor.{loaded_of, Begins, scaled};

use storage::Block;

// Begin on a packed triangle b: (t·t)·a + 1 on the diagonal, where the pivots a were loaded from src on, and 0 beside it.
#[tactic(auto, using(storage::proofs::Starts::start_below))]
pub fn init(doubles: &mut [f64], b: Block, src: usize, t: f64)
    requires { Begins (length doubles.old) (as_triangle b) (loaded_of b src) }
    ensures { doubles.new ≡ scaled (as_triangle b) (loaded_of b src) t doubles.old }
{
    let mut at = b.at;
    for r in 0..b.rows {
        doubles[at..at + r].fill(0.0);
        doubles[at + r] = t * t * doubles[src + r] + 1.0;
        at += r + 1;
    }
}
