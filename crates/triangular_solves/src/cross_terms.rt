// One pair of a solve (document 01, Record 7; the Rust's `cross_matvec_sub`, `cross_matvec_t_sub`): a block of the vector less a cross block times
// another block of it, at the places of a layout. What is left is defined in the crate solution_vectors.
ghost use Rattle.std.specs.Prelude.{◌≡◌, true, ◌+◌, ◌≤◌, ◌<◌, length, drop};
ghost use Rattle.heading_format.specs.Heading.{valid_layout};
ghost use Rattle.workspace.specs.Loaded.{row_start};
ghost use Rattle.block_places.specs.Working.{working};
ghost use Rattle.solution_vectors.specs.Vectors.{subtracted_forward, subtracted_backward};
ghost use Rattle.heading_format.specs.Parts.{heading_length};

use cross_matvec::{matvec_t, sparse_matvec, sparse_matvec_t};
use heading_format::parts;
use layout::Layout;
use solution_vectors::lent::Workspace;
use storage::Block;

// A cross block, and where the blocks of the vector start that have its rows and its columns.
#[derive(Clone, Copy)]
struct Pair {
    pub a: Block,
    pub rows: usize,
    pub cols: usize,
}

// Cross block (i, j), and the blocks i and j of the vector that lies in v from `from` on.
fn pair_at(layout: Layout, v: &[f64], from: usize, i: u64, j: u64) -> Pair
    requires { (valid_layout layout ≡ true) × (j < i) × (i < layout.k) × (from + layout.q ≤ length v.now) }
    ensures { (result.a ≡ working layout i j) × (result.rows ≡ from + row_start layout i) × (result.cols ≡ from + row_start layout j) }
{
    Pair {
        a: block_places::block(layout, i, j),
        rows: solution_vectors::block_start(layout, v, from, i),
        cols: solution_vectors::block_start(layout, v, from, j),
    }
}

// The rows of the entries of the sparse pair.
fn entry_rows(heading: &[u32]) -> &[u32]
    requires { heading_length ≤ length heading.now }
    ensures { result.now ≡ drop heading_length heading.now }
{
    &heading[parts::HEADING_LENGTH..]
}

// Going forward: block i less cross block (i, j) times block j.
pub fn subtract_forward(lent: Workspace, v: &mut [f64], from: usize, i: u64, j: u64)
    requires { (j < i) × (i < lent.layout.k) × (from + lent.layout.q ≤ length v.old) }
    ensures { v.new ≡ subtracted_forward lent.entry.heading.now lent.entry.doubles.now lent.entry.layout from i j v.old }
{
    let p = pair_at(lent.layout, v, from, i, j);
    if lent.layout.sparse {
        let rows = entry_rows(lent.heading);
        sparse_matvec::sparse_matvec_sub(v, p.rows, p.cols, lent.doubles, p.a, rows);
        return;
    }
    cross_matvec::matvec_sub(v, p.rows, p.cols, lent.doubles, p.a);
}

// Going backward: block i less the transpose of cross block (j, i) times block j.
pub fn subtract_backward(lent: Workspace, v: &mut [f64], from: usize, j: u64, i: u64)
    requires { (i < j) × (j < lent.layout.k) × (from + lent.layout.q ≤ length v.old) }
    ensures { v.new ≡ subtracted_backward lent.entry.heading.now lent.entry.doubles.now lent.entry.layout from j i v.old }
{
    let p = pair_at(lent.layout, v, from, j, i);
    if lent.layout.sparse {
        let rows = entry_rows(lent.heading);
        sparse_matvec_t::sparse_matvec_t_sub(v, p.cols, p.rows, lent.doubles, p.a, rows);
        return;
    }
    matvec_t::matvec_t_sub(v, p.cols, p.rows, lent.doubles, p.a);
}
