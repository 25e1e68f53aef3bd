// Where the parts of the result list start (document 01, Record 7), in specs/result_places/Places.antt; that the parts together are the list, in proofs/result_places/Parts.antt.
ghost use Rattle.std.specs.Prelude.{◌≡◌, true, ◌≤◌};
ghost use Rattle.heading_format.specs.Heading.{valid_layout};
ghost use Rattle.solution_vectors.specs.result_places.Places.{lx_at, w_at, result_length_of};

use layout::Layout;
use re_lower::triangle_cells;

// Where L_X starts.
pub fn l_x_at(layout: Layout) -> usize
    requires { valid_layout layout ≡ true }
    ensures { result ≡ lx_at layout }
{
    let p = layout.p as usize;
    let q = layout.q as usize;
    p + q + q
}

// Where w of row r of block k starts.
pub fn w_at(layout: Layout, r: usize) -> usize
    requires { (valid_layout layout ≡ true) × (r ≤ layout.p) }
    ensures { result ≡ w_at layout r }
{
    let p = layout.p as usize;
    let q = layout.q as usize;
    let response = l_x_at(layout) + triangle_cells::row_start(p);
    if r == p {
        return response;
    }
    response + q + r * q
}

// How many doubles the result list has.
pub fn result_length(layout: Layout) -> usize
    requires { valid_layout layout ≡ true }
    ensures { result ≡ result_length_of layout }
{
    let p = layout.p as usize;
    let q = layout.q as usize;
    l_x_at(layout) + triangle_cells::row_start(p) + q + p * q
}
