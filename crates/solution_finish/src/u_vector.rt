// u (document 01, Record 7; the Rust's `solve_profile_finish`): w of y less the columns of w times beta. All of it lies in one list, which begins with
// beta.
ghost use Rattle.std.specs.Prelude.{◌≡◌, ◌+◌, ◌*◌, ◌≤◌, ◌<◌, length};
ghost use Rattle.solution_finish.specs.u_vector.Offsets.{row_sum, offsets_left};

// The products of one row of the columns with beta, summed.
fn row_sum(v: &[f64], from: usize, q: usize, p: usize) -> f64
    requires { (p ≤ length v.now) × (from + p * q < length v.now + q) × (q ≤ length v.now) }
    ensures { result ≡ row_sum v.now from q p }
{
    let mut s = 0.0;
    let mut at = from;
    for j in 0..p {
        s = s + v[at] * v[j];
        at += q;
    }
    s
}

// u, row by row.
pub fn write_u(v: &mut [f64], u: usize, wy: usize, first: usize, q: usize, p: usize)
    requires { (p ≤ u) × (u + q ≤ wy) × (wy + q ≤ first) × (first + p * q ≤ length v.old) }
    ensures { v.new ≡ offsets_left u wy first q p v.old }
{
    for i in 0..q {
        v[u + i] = v[wy + i] - row_sum(v, first + i, q, p);
    }
}
