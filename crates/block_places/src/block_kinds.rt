// What the steps ask of the working blocks of a workspace: how many rows each has, and how each factor is stored. Its shape, its limits and its
// place are in proofs/block_kinds/Shapes.antt.
ghost use Rattle.std.specs.Prelude.{◌≡◌, true, ◌≤◌};
ghost use Rattle.layout.specs.Shapes.{factor_kind, last_rows};
ghost use Rattle.heading_format.specs.Heading.{valid_layout};
ghost use Rattle.block_places.specs.block_kinds.Rows.{rows_of};

use layout::{FactorKind, Layout};

// The rows of block k.
pub fn last_rows(layout: Layout) -> u64
    requires { valid_layout layout ≡ true }
    ensures { (result ≡ last_rows layout) × (result ≤ 33) }
{
    layout.p + 1
}

// The rows of block i.
pub fn rows_of(layout: Layout, i: u64) -> usize
    requires { (valid_layout layout ≡ true) × (i ≤ layout.k) }
    ensures { result ≡ rows_of layout i }
{
    if i == layout.k {
        return last_rows(layout) as usize;
    }
    let t = i as usize;
    layout.m[t] as usize
}

// How factor j is stored.
pub fn factor_kind(layout: Layout, j: u64) -> FactorKind
    ensures { result ≡ factor_kind layout j }
{
    if (j == 0) | ((j == 1) & layout.diagonal) {
        return FactorKind::Diagonal;
    }
    FactorKind::Packed
}
