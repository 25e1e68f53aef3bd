// X'X less V'W, the right side of beta, and y'y less v of y times w of y (document 01, Record 7; the Rust's `solve_profile_finish`). v of each row
// stands for a while where b will be.
ghost use Rattle.std.specs.Prelude.{◌≡◌, ◌+◌, ◌<◌, length};
ghost use Rattle.solution_vectors.specs.result_places.Places.{result_length_of, Solved, Products};
ghost use Rattle.solution_finish.specs.fixed_rows.Fixing.{Fixing};
ghost use Rattle.layout.specs.Shapes.{last_rows};

use crate::fixed_rows;
use block_places::places;
use cross_matvec::{column_sums, matvec_t};
use re_lower::triangle_cells;
use solution_vectors::lent::Workspace;
use solution_vectors::result_places;
use storage::Block;
use triangular_solves::scaled_row;

// Row i: v of the row times w of the columns up to i, and times w of y.
fn subtract_row(lent: Workspace, v: &mut [f64], i: usize)
    requires { (i < lent.layout.p) × Fixing lent.heading.now lent.doubles.now lent.layout i v.old }
    ensures { Fixing lent.entry.heading.now lent.entry.doubles.now lent.entry.layout (i + 1) v.new }
{
    let p = lent.layout.p as usize;
    let q = lent.layout.q as usize;
    let row = result_places::l_x_at(lent.layout) + triangle_cells::row_start(i);
    let columns = Block {
        at: result_places::w_at(lent.layout, 0),
        rows: q,
        cols: i + 1,
    };
    let response = result_places::w_at(lent.layout, p);
    let vector = Block {
        at: p,
        rows: q,
        cols: 1,
    };
    scaled_row::scale_row(lent, v, p, i);
    matvec_t::matvec_t_sub_own(v, row, p, columns);
    matvec_t::matvec_t_sub_own(v, i, response, vector);
}

// Every row.
fn subtract_rows(lent: Workspace, v: &mut [f64])
    requires { Fixing lent.heading.now lent.doubles.now lent.layout 0 v.old }
    ensures { Fixing lent.entry.heading.now lent.entry.doubles.now lent.entry.layout lent.entry.layout.p v.new }
{
    let p = lent.layout.p as usize;
    for i in 0..p {
        subtract_row(lent, v, i);
    }
}

// y'y less v of y times w of y.
fn subtract_response(lent: Workspace, v: &mut [f64]) -> f64
    requires { Fixing lent.heading.now lent.doubles.now lent.layout lent.layout.p v.old }
    ensures { Products lent.entry.heading.now lent.entry.doubles.now lent.entry.layout v.new result }
{
    let p = lent.layout.p as usize;
    let response = result_places::w_at(lent.layout, p);
    let last = places::loaded_at(lent.layout, lent.layout.k, lent.layout.k)
        + triangle_cells::row_start(p)
        + p;
    scaled_row::scale_row(lent, v, p, p);
    lent.doubles[last] - column_sums::one(v, p, lent.layout.q as usize, v, response)
}

// The loaded triangle: X'X into the place of L_X, X'y into the place of beta. Each row less v of the row times w of the columns and of y.
pub fn subtract_products(lent: Workspace, v: &mut [f64]) -> f64
    requires long { length v.old ≡ result_length_of lent.layout }
    requires solved { Solved lent.heading.now lent.doubles.now lent.layout (last_rows lent.layout) v.old }
    ensures { Products lent.entry.heading.now lent.entry.doubles.now lent.entry.layout v.new result }
{
    fixed_rows::load_xtx(lent, v);
    subtract_rows(lent, v);
    subtract_response(lent, v)
}
