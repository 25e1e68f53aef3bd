// Forward substitution with a packed factor (document 01, Records 4 and 7), in its place.
ghost use Rattle.std.specs.Prelude.{◌≡◌, ◌+◌, ◌≤◌, ◌<◌, length};
ghost use Rattle.storage.specs.Runs.{start, triangle};
ghost use Rattle.re_lower.specs.Lower.{row_solved};

// T on one row: the n cells that t begins with are solved in place with the packed factor l.
#[tactic(auto, using(storage::proofs::Starts::start_below))]
pub fn solve_row(t: &mut [f64], l: &[f64], n: usize)
    requires { (n ≤ length t.old) × (start triangle n ≤ length l.now) }
    ensures { t.new ≡ row_solved t.old l.now n }
{
    let mut from = 0;
    for x in 0..n {
        let v = crate::chain(t[x], &t[..x], &l[from..from + x]);
        t[x] = v / l[from + x];
        from += x + 1;
    }
}
