// The deviance's value with a scale (document 01, Records 6 and 7): of a finished factor and of a solution alike.
ghost use Rattle.std.specs.Prelude.{◌≡◌, true, ◌≤◌, length};
ghost use Rattle.storage.specs.Placed.{as_triangle, Lies};
ghost use Rattle.rules.specs.Arithmetic.{ieee};
ghost use Rattle.rules.specs.Finish.{deviance_of};
ghost use Rattle.re_factor.specs.Factor.{pivot_at};
ghost use Rattle.heading_format.specs.Heading.{valid_layout};
ghost use Rattle.profile.specs.Deviance.{freedom};

use layout::Layout;
use re_factor::block_logs;
use storage::Block;

// n, or n - p: both are exact.
pub fn freedom(layout: Layout, reml: bool) -> f64
    requires { valid_layout layout ≡ true }
    ensures { result ≡ freedom layout reml }
{
    if reml {
        return (layout.n as f64) - (layout.p as f64);
    }
    layout.n as f64
}

// The deviance with d and the scale s. REML adds twice the logarithms of the pivots of the packed factor b.
pub fn value(doubles: &[f64], b: Block, d: f64, s: f64, logdet: f64, reml: bool) -> f64
    requires { (b.rows ≤ 316) × Lies (length doubles.now) (as_triangle b) }
    ensures { result ≡ deviance_of ieee reml d s logdet (pivot_at (as_triangle b) doubles.now) b.rows }
{
    let ml = d * logarithm::ln(f64::from_bits(4618760256179416344) * s) + logdet + d;
    if reml {
        return ml + 2.0 * block_logs::log_pivots(doubles, b, 0.0);
    }
    ml
}
