// The profiled deviance of a finished factor (document 01, Record 6).
ghost use Rattle.std.specs.Prelude.{◌≡◌, ◌≤◌, length};
ghost use Rattle.rules.specs.Arithmetic.{ieee};
ghost use Rattle.rules.specs.Finish.{deviance_of};
ghost use Rattle.deviance.specs.deviance_tail.Tail.{pivot_of, log_determinant_of, deviance_with};
ghost use Rattle.heading_format.specs.Fits.{Room};
ghost use Rattle.layout.specs.Shapes.{response_row};

use crate::deviance_value;
use block_places::places;
use layout::Layout;
use profile::Deviance;
use re_lower::triangle_cells;
use storage::Block;

// Twice the logarithms' sum.
pub fn log_determinant(layout: Layout, doubles: &[f64]) -> f64
    requires { Room layout (length doubles.now) }
    ensures { result ≡ log_determinant_of layout doubles.now }
{
    2.0 * doubles[places::sum_at(layout)]
}

// The last pivot of all.
fn last_pivot(layout: Layout, doubles: &[f64]) -> f64
    requires { Room layout (length doubles.now) }
    ensures { result ≡ pivot_of layout doubles.now (response_row layout) }
{
    let p = layout.p as usize;
    doubles[places::working_at(layout, layout.k, layout.k) + triangle_cells::row_start(p) + p]
}

// The deviance with d and the scale s. REML adds twice the logarithms of the first p pivots of block k.
fn value(layout: Layout, doubles: &[f64], d: f64, s: f64, logdet: f64, reml: bool) -> f64
    requires { Room layout (length doubles.now) }
    ensures { result ≡ deviance_of ieee reml d s logdet (pivot_of layout doubles.now) layout.p }
{
    let b = Block {
        at: places::working_at(layout, layout.k, layout.k),
        rows: layout.p as usize,
        cols: layout.p as usize,
    };
    deviance_value::value(doubles, b, d, s, logdet, reml)
}

// The deviance of the doubles, the log determinant being known: no scale where the square of the last pivot or d is at most 0.
pub fn tail(layout: Layout, doubles: &[f64], logdet: f64, reml: bool) -> Deviance
    requires { Room layout (length doubles.now) }
    ensures { result ≡ deviance_with layout doubles.now logdet reml }
{
    let pivot = last_pivot(layout, doubles);
    let r2 = pivot * pivot;
    let d = deviance_value::freedom(layout, reml);
    if (r2 <= 0.0) | (d <= 0.0) {
        return Deviance::NoScale;
    }
    Deviance::Value(value(layout, doubles, d, r2 / d, logdet, reml))
}
