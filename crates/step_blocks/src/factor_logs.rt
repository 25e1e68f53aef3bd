// The logarithms that C adds to the sum (document 01, Record 4).
ghost use Rattle.std.specs.Prelude.{◌≡◌, true, [], ◌∷◌, ◌≤◌, ◌<◌, length, get_or};
ghost use Rattle.storage.specs.Part.{store};
ghost use Rattle.storage.specs.Placed.{Lies};
ghost use Rattle.layout.specs.declared.FactorKind.TheVariants.{Diagonal, Packed};
ghost use Rattle.layout.specs.Shapes.{sum_at};
ghost use Rattle.heading_format.specs.Heading.{valid_layout};
ghost use Rattle.rules.specs.Arithmetic.{ieee};
ghost use Rattle.block_places.specs.Working.{as_factor};
ghost use Rattle.re_factor.specs.Factor.{pivot_at};
ghost use Rattle.step_blocks.specs.factor_logs.Factors.{logs_of, sum_with};

use block_places::places;
use layout::{FactorKind, Layout};
use re_factor::block_logs;
use storage::Block;

// The logarithms of factor b, with x: those of block 0, a diagonal, one by one; those of a later one summed from 0.0 and added at once.
fn logs(doubles: &[f64], kind: FactorKind, b: Block, first: bool, x: f64) -> f64
    requires { Lies (length doubles.now) (as_factor kind b) × (kind ≡ Packed → b.rows ≤ 316) × (first ≡ true → kind ≡ Diagonal) }
    ensures { result ≡ logs_of first x (pivot_at (as_factor kind b) doubles.now) b.rows }
{
    if first {
        return block_logs::log_diagonal(doubles, b, x);
    }
    match kind {
        FactorKind::Diagonal => block_logs::logs_later_diagonal(doubles, b, x),
        FactorKind::Packed => block_logs::logs_later(doubles, b, x),
    }
}

// The running sum with the logarithms of factor b of block j; block k has none there.
pub fn add_logs(layout: Layout, doubles: &mut [f64], kind: FactorKind, b: Block, j: u64)
    requires layout_value { (valid_layout layout ≡ true) × (sum_at layout < length doubles.old) }
    requires lies { Lies (length doubles.old) (as_factor kind b) × (kind ≡ Packed → b.rows ≤ 316) × (j ≡ 0 → kind ≡ Diagonal) }
    ensures { doubles.new ≡ store (sum_at layout) (sum_with layout j (get_or doubles.old (sum_at layout) ieee.zero) (pivot_at (as_factor kind b) doubles.old) b.rows ∷ []) doubles.old }
{
    if j == layout.k {
        return;
    }
    let z = places::sum_at(layout);
    let first = j == 0;
    let x = logs(doubles, kind, b, first, doubles[z]);
    doubles[z] = x;
}
