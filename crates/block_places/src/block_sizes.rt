// How many cells each block has, and how many lie before it (document 01, Record 2).
ghost use Rattle.std.specs.Prelude.{◌≡◌, true, ◌≤◌, ◌<◌};
ghost use Rattle.layout.specs.Shapes.{levels, factors, across, pairs, targets, cells_of, before};
ghost use Rattle.heading_format.specs.Heading.{valid_layout};
ghost use Rattle.block_places.specs.block_sizes.Kind.{sizes_of};

use crate::block_kinds;
use layout::{FactorKind, Layout};

// Levels of sorted block j.
fn levels_of(layout: Layout, j: u64) -> u64
    requires { j < 8 }
    ensures { result ≡ levels layout j }
{
    let t = j as usize;
    layout.m[t]
}

// The cells of factor j, of which the diagonal alone is loaded.
fn factor_size(layout: Layout, loaded: bool, j: u64) -> u64
    requires { (valid_layout layout ≡ true) × (j < layout.k) }
    ensures { result ≡ sizes_of layout loaded j j }
{
    let m = levels_of(layout, j);
    if loaded {
        return m;
    }
    match block_kinds::factor_kind(layout, j) {
        FactorKind::Diagonal => m,
        FactorKind::Packed => m * (m + 1) / 2,
    }
}

// The cells of pair (i, j): one for each column where it is sparse, else rows times columns.
fn pair_size(layout: Layout, loaded: bool, i: u64, j: u64) -> u64
    requires { (valid_layout layout ≡ true) × (j < i) × (i < layout.k) }
    ensures { result ≡ sizes_of layout loaded i j }
{
    if layout.sparse {
        return levels_of(layout, 0);
    }
    levels_of(layout, i) * levels_of(layout, j)
}

// The cells of the fixed rows of factor j, and of the last triangle for j = k.
fn fixed_size(layout: Layout, loaded: bool, j: u64) -> u64
    requires { (valid_layout layout ≡ true) × (j ≤ layout.k) }
    ensures { result ≡ sizes_of layout loaded layout.k j }
{
    let rows = block_kinds::last_rows(layout);
    if j == layout.k {
        return rows * (rows + 1) / 2;
    }
    rows * levels_of(layout, j)
}

// The cells of block (i, j).
pub fn size_of(layout: Layout, loaded: bool, i: u64, j: u64) -> u64
    requires { (valid_layout layout ≡ true) × (j ≤ i) × (i ≤ layout.k) }
    ensures { result ≡ sizes_of layout loaded i j }
{
    if i == layout.k {
        return fixed_size(layout, loaded, j);
    }
    if i == j {
        return factor_size(layout, loaded, j);
    }
    pair_size(layout, loaded, i, j)
}

// The cells of the first n factors.
fn factor_cells(layout: Layout, loaded: bool, n: u64) -> u64
    requires { (valid_layout layout ≡ true) × (n ≤ layout.k) }
    ensures { result ≡ cells_of (sizes_of layout loaded) (factors n) }
{
    let mut cells: u64 = 0;
    for j in 0..n {
        cells += size_of(layout, loaded, j, j);
    }
    cells
}

// The cells of the first n blocks of row i.
fn row_cells(layout: Layout, loaded: bool, i: u64, n: u64) -> u64
    requires { (valid_layout layout ≡ true) × (n ≤ i) × (i ≤ layout.k) }
    ensures { result ≡ cells_of (sizes_of layout loaded) (across i n) }
{
    let mut cells: u64 = 0;
    for j in 0..n {
        cells += size_of(layout, loaded, i, j);
    }
    cells
}

// The cells of the pairs of the first n factors.
fn pair_cells(layout: Layout, loaded: bool, n: u64) -> u64
    requires { (valid_layout layout ≡ true) × (n ≤ layout.k) }
    ensures { result ≡ cells_of (sizes_of layout loaded) (pairs n) }
{
    let mut cells: u64 = 0;
    for i in 0..n {
        cells += row_cells(layout, loaded, i, i);
    }
    cells
}

// The cells of the blocks before (i, j): of the factors before it; else of all factors, of the pairs of the rows above, and of its own row.
pub fn cells_before(layout: Layout, loaded: bool, i: u64, j: u64) -> u64
    requires { (valid_layout layout ≡ true) × (j ≤ i) × (i ≤ layout.k) }
    ensures { result ≡ before (sizes_of layout loaded) (targets layout.k) i j }
{
    if i == j {
        if i < layout.k {
            return factor_cells(layout, loaded, j);
        }
    }
    factor_cells(layout, loaded, layout.k)
        + pair_cells(layout, loaded, i)
        + row_cells(layout, loaded, i, j)
}

// The cells of all blocks.
pub fn all_cells(layout: Layout, loaded: bool) -> u64
    requires { valid_layout layout ≡ true }
    ensures { result ≡ cells_of (sizes_of layout loaded) (targets layout.k) }
{
    cells_before(layout, loaded, layout.k, layout.k) + size_of(layout, loaded, layout.k, layout.k)
}
