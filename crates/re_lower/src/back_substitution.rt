// Backward substitution with a packed triangle (document 01, Record 7), product by product, then the division.
ghost use Rattle.std.specs.Prelude.{◌≡◌, ◌+◌, ◌≤◌, ◌<◌, length};
ghost use Rattle.storage.specs.Runs.{start, triangle};
ghost use Rattle.re_lower.specs.Lower.{below_pivot, back_solved};

// s less the products of column i of the packed factor l, below its pivot, with t[i + 1], .., t[n - 1], one by one. Row i + 1 starts at `from`.
#[tactic(auto, using(storage::proofs::Starts::start_below))]
fn chain_column(t: &[f64], l: &[f64], i: usize, from: usize, n: usize, s: f64) -> f64
    requires { (i < n) × (n ≤ length t.now) × (start triangle n ≤ length l.now) × (from ≡ start triangle (i + 1)) }
    ensures { result ≡ below_pivot s l.now t.now i n }
{
    let mut v = s;
    let mut row = from;
    for q in i + 1..n {
        v = v - l[row + i] * t[q];
        row += q + 1;
    }
    v
}

// Backward substitution: the n cells that t begins with are solved in place with the transpose of the packed factor l, the last first.
pub fn backward(t: &mut [f64], l: &[f64], n: usize)
    requires { (n ≤ length t.old) × (start triangle n ≤ length l.now) }
    ensures { t.new ≡ back_solved t.old l.now n }
{
    let mut from = n * (n + 1) / 2;
    for i in (0..n).rev() {
        let below = from;
        from -= i + 1;
        let v = t[i];
        t[i] = chain_column(t, l, i, below, n, v) / l[from + i];
    }
}
