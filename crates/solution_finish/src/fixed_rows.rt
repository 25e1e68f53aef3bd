// X'X less V'W and the right side of beta, row by row (document 01, Record 7): how far they are made is in specs/fixed_rows/Fixing.antt. Here they are loaded.
ghost use Rattle.std.specs.Prelude.{◌≡◌, length};
ghost use Rattle.solution_vectors.specs.result_places.Places.{result_length_of, Solved};
ghost use Rattle.solution_finish.specs.fixed_rows.Fixing.{Fixing};
ghost use Rattle.layout.specs.Shapes.{last_rows};

use block_places::places;
use block_runs::runs;
use re_lower::triangle_cells;
use solution_vectors::lent::Workspace;
use solution_vectors::result_places;

// X'X into the place of L_X, and X'y into the place of beta.
pub fn load_xtx(lent: Workspace, v: &mut [f64])
    requires long { length v.old ≡ result_length_of lent.layout }
    requires solved { Solved lent.heading.now lent.doubles.now lent.layout (last_rows lent.layout) v.old }
    ensures { Fixing lent.entry.heading.now lent.entry.doubles.now lent.entry.layout 0 v.new }
{
    let p = lent.layout.p as usize;
    let from = places::loaded_at(lent.layout, lent.layout.k, lent.layout.k);
    let n = triangle_cells::row_start(p);
    runs::copy(v, result_places::l_x_at(lent.layout), n, lent.doubles, from);
    runs::copy(v, 0, p, lent.doubles, from + n);
}
