// v of a fixed row (document 01, Record 7; the Rust's `scale_block_rhs_buf`): its loaded cells times theta, in sheet order.
ghost use Rattle.std.specs.Prelude.{◌≡◌, ◌+◌, ◌≤◌, ◌<◌, length};
ghost use Rattle.storage.specs.Placed.{Lies, as_columns, read};
ghost use Rattle.rules.specs.Arithmetic.{ieee};
ghost use Rattle.rules.specs.Begin.{fixed_cell};
ghost use Rattle.block_runs.specs.axpy.Axpy.{run};
ghost use Rattle.workspace.specs.Memory.{theta_of};
ghost use Rattle.profile.specs.Solves.{scaled_row, block_in};
ghost use Rattle.solution_vectors.specs.Vectors.{with_block_at, with_vector};

use block_places::{block_kinds, places};
use solution_vectors::lent::Workspace;
use storage::Block;

// Theta of sorted block j: theta is kept in sheet order.
pub fn theta_of(lent: Workspace, j: u64) -> f64
    requires { j < lent.layout.k }
    ensures { result ≡ theta_of lent.entry.heading.now lent.entry.doubles.now j }
{
    let t = j as usize;
    let sheet = lent.layout.order[t] as usize;
    lent.doubles[places::theta_at(lent.layout) + sheet]
}

// Row r of block a times theta, into v from `to` on.
fn scale_cells(v: &mut [f64], to: usize, doubles: &[f64], a: Block, r: usize, theta: f64)
    requires { Lies (length doubles.now) (as_columns a) × (r < a.rows) × (to + a.cols ≤ length v.old) }
    ensures { v.new ≡ run to a.cols (λ c. fixed_cell ieee theta (read (as_columns a) doubles.now r c)) v.old }
{
    let mut column = a.at;
    for c in 0..a.cols {
        v[to + c] = doubles[column + r] * theta;
        column += a.rows;
    }
}

// The cells of sorted block j.
fn scale_block(lent: Workspace, v: &mut [f64], from: usize, r: usize, j: u64)
    requires { (r ≤ lent.layout.p) × (j < lent.layout.k) × (from + lent.layout.q ≤ length v.old) }
    ensures { v.new ≡ with_block_at lent.entry.layout from j (block_in (scaled_row lent.entry.heading.now lent.entry.doubles.now r) j) v.old }
{
    let theta = theta_of(lent, j);
    let to = solution_vectors::block_start(lent.layout, v, from, j);
    let a = Block {
        at: places::loaded_at(lent.layout, lent.layout.k, j),
        rows: block_kinds::rows_of(lent.layout, lent.layout.k),
        cols: block_kinds::rows_of(lent.layout, j),
    };
    scale_cells(v, to, lent.doubles, a, r, theta);
}

// Row r of the fixed rows: the q doubles of v from `from` on.
pub fn scale_row(lent: Workspace, v: &mut [f64], from: usize, r: usize)
    requires { (r ≤ lent.layout.p) × (from + lent.layout.q ≤ length v.old) }
    ensures { v.new ≡ with_vector lent.entry.layout from (scaled_row lent.entry.heading.now lent.entry.doubles.now r) v.old }
{
    for j in 0..lent.layout.k {
        scale_block(lent, v, from, r, j);
    }
}
