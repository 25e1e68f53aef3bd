// The logarithms of a factor's pivots, added one by one (document 01, Record 4).
ghost use Rattle.std.specs.Prelude.{◌≡◌, ◌+◌, ◌≤◌, ◌<◌, length};
ghost use Rattle.storage.specs.Runs.{start, triangle};
ghost use Rattle.re_lower.specs.Lower.{logs_of_triangle, logs_of_diagonal};

// s and the logarithms of the n pivots of a packed factor, one by one.
#[tactic(auto, using(storage::proofs::Starts::start_below))]
pub fn log_pivots(t: &[f64], n: usize, s: f64) -> f64
    requires { start triangle n ≤ length t.now }
    ensures { result ≡ logs_of_triangle t.now n s }
{
    let mut v = s;
    let mut from = 0;
    for r in 0..n {
        v = v + logarithm::ln(t[from + r]);
        from += r + 1;
    }
    v
}

// s and the logarithms of the n pivots of a diagonal, one by one. A loop of its own: one that is handed each pivot by a closure is no plainer than
// these three lines.
pub fn log_diagonal(t: &[f64], n: usize, s: f64) -> f64
    requires { n ≤ length t.now }
    ensures { result ≡ logs_of_diagonal t.now n s }
{
    let mut v = s;
    for r in 0..n {
        v = v + logarithm::ln(t[r]);
    }
    v
}
