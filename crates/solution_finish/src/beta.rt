// The fixed effects beta (document 01, Record 7; the Rust's `solve_profile_finish`).
ghost use Rattle.std.specs.Prelude.{◌+◌, ◌≤◌, length};
ghost use Rattle.storage.specs.Shape.{packed, size_of};
ghost use Rattle.solution_finish.specs.beta.Beta.{Effects};

use block_runs::runs;
use cross_matvec::column_sums;
use re_factor::block_solve;
use storage::Block;

// beta in the place of its right side, the first p doubles of v, by the packed factor at off: forward, then back substitution. The answer is beta times
// its right side.
pub fn solve_beta(v: &mut [f64], off: usize, p: usize) -> f64
    requires { (p ≤ 32) × (p ≤ length v.old) × (off + size_of (packed p) ≤ length v.old) }
    ensures { Effects off p v.old v.new result }
{
    let mut b = [0.0; 32];
    let factor = Block {
        at: off,
        rows: p,
        cols: p,
    };
    runs::copy(&mut b, 0, p, v, 0);
    block_solve::forward(&mut b, 0, v, factor);
    block_solve::backward(&mut b, 0, v, factor);
    let r = column_sums::one(&b, 0, p, v, 0);
    runs::copy(v, 0, p, &b, 0);
    r
}
