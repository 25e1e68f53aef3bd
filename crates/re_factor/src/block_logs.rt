// The logarithms that C adds to the running sum (document 01, Record 4), of a block that is read from the whole list.
ghost use Rattle.std.specs.Prelude.{◌≡◌, ◌≤◌, length};
ghost use Rattle.storage.specs.Placed.{as_triangle, as_diagonal, Lies};
ghost use Rattle.re_factor.specs.Factor.{logs_first, logs_later};

use re_lower::{pivot_logs, triangle_cells};
use storage::Block;

// s and the logarithms of the pivots of the packed factor b, one by one.
pub fn log_pivots(doubles: &[f64], b: Block, s: f64) -> f64
    requires { (b.rows ≤ 316) × Lies (length doubles.now) (as_triangle b) }
    ensures { result ≡ logs_first (as_triangle b) b.rows s doubles.now }
{
    let at = b.at;
    let end = at + triangle_cells::row_start(b.rows);
    pivot_logs::log_pivots(&doubles[at..end], b.rows, s)
}

// s and the logarithms of the pivots of the diagonal b, one by one.
#[tactic(auto, using(storage::proofs::Starts::start_single))]
pub fn log_diagonal(doubles: &[f64], b: Block, s: f64) -> f64
    requires { Lies (length doubles.now) (as_diagonal b) }
    ensures { result ≡ logs_first (as_diagonal b) b.rows s doubles.now }
{
    let at = b.at;
    let end = at + b.rows;
    pivot_logs::log_diagonal(&doubles[at..end], b.rows, s)
}

// s and the sum of those logarithms, from 0.0: of a packed factor.
pub fn logs_later(doubles: &[f64], b: Block, s: f64) -> f64
    requires { (b.rows ≤ 316) × Lies (length doubles.now) (as_triangle b) }
    ensures { result ≡ logs_later (as_triangle b) b.rows s doubles.now }
{
    s + log_pivots(doubles, b, 0.0)
}

// And of a diagonal.
pub fn logs_later_diagonal(doubles: &[f64], b: Block, s: f64) -> f64
    requires { Lies (length doubles.now) (as_diagonal b) }
    ensures { result ≡ logs_later (as_diagonal b) b.rows s doubles.now }
{
    s + log_diagonal(doubles, b, 0.0)
}
