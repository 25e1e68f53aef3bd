// Where the pivots of a working factor lie (document 01, Record 4).
ghost use Rattle.std.specs.Prelude.{◌≡◌, true, ◌<◌, ◌≤◌, length};
ghost use Rattle.heading_format.specs.Heading.{valid_layout};
ghost use Rattle.block_places.specs.block_kinds.Rows.{rows_of};
ghost use Rattle.views.specs.pivot_places.Pivots.{pivot_in, pivot_at};
ghost use Rattle.heading_format.specs.Fits.{Room};

use block_places::{block_kinds, places};
use layout::{FactorKind, Layout};
use re_lower::triangle_cells;

// Where pivot r lies in its block: in a diagonal at r, in a triangle at the end of row r.
fn pivot_place(layout: Layout, j: u64, r: u64) -> usize
    requires { (valid_layout layout ≡ true) × (j ≤ layout.k) × (r < rows_of layout j) }
    ensures { result ≡ pivot_in layout j r }
{
    let t = r as usize;
    match block_kinds::factor_kind(layout, j) {
        FactorKind::Diagonal => t,
        FactorKind::Packed => triangle_cells::row_start(t) + t,
    }
}

// Pivot r of block j.
pub fn read_pivot(layout: Layout, doubles: &[f64], j: u64, r: u64) -> f64
    requires { Room layout (length doubles.now) × (j ≤ layout.k) × (r < rows_of layout j) }
    ensures { result ≡ pivot_at layout doubles.now j r }
{
    doubles[places::working_at(layout, j, j) + pivot_place(layout, j, r)]
}
