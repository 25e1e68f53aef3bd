// The parts of a solution behind its factor (document 01, Record 7; the Rust's `solve_profile_finish`): beta, u and b in their places, and the two
// scalars.
ghost use Rattle.std.specs.Prelude.{◌≡◌, length};
ghost use Rattle.storage.specs.Runs.{start, triangle};
ghost use Rattle.storage.specs.Part.{part};
ghost use Rattle.profile.specs.Finish.{flattened, fixed_factor};
ghost use Rattle.solution_vectors.specs.result_places.Places.{lx_at, result_length_of};
ghost use Rattle.solution_finish.specs.result_laws.Ready.{Ready};
ghost use Rattle.solution_finish.specs.result_parts.Finished.{Finished, scalars_with};

use crate::{b_vector, beta, u_vector};
use deviance::{deviance_tail, deviance_value};
use profile::Solution;
use solution_vectors::lent::Workspace;
use solution_vectors::result_places;
use storage::Block;

// beta, u, then b. The answer is beta times its right side.
pub fn make_parts(lent: Workspace, v: &mut [f64]) -> f64
    requires { Ready lent.heading.now lent.doubles.now lent.layout v.old }
    ensures { Finished lent.entry.heading.now lent.entry.doubles.now lent.entry.layout v.new result }
{
    let p = lent.layout.p as usize;
    let q = lent.layout.q as usize;
    let factor = result_places::l_x_at(lent.layout);
    let response = result_places::w_at(lent.layout, p);
    let r = beta::solve_beta(v, factor, p);
    u_vector::write_u(v, p + q, response, response + q, q, p);
    b_vector::write_b(lent, v);
    r
}

// sigma2 = r2 / d, which is not tested, and the deviance with it.
pub fn scalars(lent: Workspace, v: &[f64], reml: bool, r2: f64) -> Solution
    requires long { length v.now ≡ result_length_of lent.layout }
    requires v_value { part (lx_at lent.layout) (start triangle lent.layout.p) v.now ≡ flattened (fixed_factor lent.heading.now lent.doubles.now) }
    ensures { result ≡ scalars_with lent.entry.heading.now lent.entry.doubles.now reml r2 }
{
    let d = deviance_value::freedom(lent.layout, reml);
    let sigma2 = r2 / d;
    let logdet = deviance_tail::log_determinant(lent.layout, lent.doubles);
    let factor = Block {
        at: result_places::l_x_at(lent.layout),
        rows: lent.layout.p as usize,
        cols: lent.layout.p as usize,
    };
    let deviance = deviance_value::value(v, factor, d, sigma2, logdet, reml);
    Solution { deviance, sigma2 }
}
