// S of a triangle, of a diagonal and of a sparse pair (document 01, Record 4), at the places of a layout.
ghost use Rattle.std.specs.Prelude.{◌≡◌, true, false, ◌+◌, ◌≤◌, ◌<◌, length};
ghost use Rattle.storage.specs.Placed.{as_columns, as_entries};
ghost use Rattle.layout.specs.declared.FactorKind.TheVariants.{Diagonal, Packed};
ghost use Rattle.layout.specs.Shapes.{factor_kind, loaded_at};
ghost use Rattle.block_runs.specs.blocks.Blocks.{row_from, RowsBelow};
ghost use Rattle.schur.specs.rank_diagonal.Diagonal.{subtracted_diagonal};
ghost use Rattle.schur.specs.Schur.{subtracted_rank, subtracted_entries};
ghost use Rattle.block_places.specs.block_kinds.Rows.{rows_of};
ghost use Rattle.block_places.specs.Working.{working};
ghost use Rattle.heading_format.specs.Parts.{heading_length};
ghost use Rattle.heading_format.specs.Fits.{Room};

use block_places::places;
use heading_format::parts;
use layout::Layout;
use schur::{dense_triangle, rank_diagonal, rank_diagonal_sparse, sparse_schur};

// S(j, j, x) of a triangle: less block (j, x) times itself.
pub fn subtract_triangle_block(layout: Layout, doubles: &mut [f64], j: u64, x: u64)
    requires { Room layout (length doubles.old) × (x < j) × (j < layout.k) × (factor_kind layout j ≡ Packed) }
    ensures { doubles.new ≡ subtracted_rank (working layout j j) (working layout j x) doubles.old }
{
    let t = block_places::block(layout, j, j);
    let a = block_places::block(layout, j, x);
    dense_triangle::rank_sub(doubles, t, a);
}

// S(1, 1, 0) of a diagonal whose pair is dense: over the cells that were loaded.
pub fn subtract_diagonal_block(layout: Layout, doubles: &mut [f64])
    requires { Room layout (length doubles.old) × (1 < layout.k) × (factor_kind layout 1 ≡ Diagonal) × (layout.sparse ≡ false) }
    ensures { doubles.new ≡ subtracted_diagonal as_columns (working layout 1 1) (working layout 1 0) (loaded_at layout 1 0) doubles.old }
{
    let t = block_places::block(layout, 1, 1);
    let a = block_places::block(layout, 1, 0);
    let src = places::loaded_at(layout, 1, 0);
    rank_diagonal::rank_sub_diagonal(doubles, t, a, src);
}

// S(1, 1, 0) of a diagonal whose pair is sparse: over the entries that were loaded.
pub fn subtract_diagonal_sparse_block(layout: Layout, heading: &[u32], doubles: &mut [f64])
    requires { Room layout (length doubles.old) × (layout.sparse ≡ true) × (layout.k ≡ 2) × (heading_length + rows_of layout 0 ≤ length heading.now) }
    ensures { doubles.new ≡ subtracted_diagonal (as_entries (row_from heading.now heading_length)) (working layout 1 1) (working layout 1 0) (loaded_at layout 1 0) doubles.old }
{
    let t = block_places::block(layout, 1, 1);
    let a = block_places::block(layout, 1, 0);
    let src = places::loaded_at(layout, 1, 0);
    rank_diagonal_sparse::rank_sub_diagonal_sparse(
        doubles,
        t,
        a,
        src,
        heading,
        parts::HEADING_LENGTH,
    );
}

// S(2, 1, 0) of fixed rows where the pair is sparse: less the fixed rows of factor 0 times its entries.
pub fn subtract_sparse_block(layout: Layout, heading: &[u32], doubles: &mut [f64])
    requires { Room layout (length doubles.old) × (layout.sparse ≡ true) × (layout.k ≡ 2) × (heading_length + rows_of layout 0 ≤ length heading.now) × RowsBelow heading.now heading_length (rows_of layout 0) (rows_of layout 1) }
    ensures { doubles.new ≡ subtracted_entries (row_from heading.now heading_length) (working layout 2 1) (working layout 2 0) (working layout 1 0) doubles.old }
{
    let t = block_places::block(layout, 2, 1);
    let a = block_places::block(layout, 2, 0);
    let v = block_places::block(layout, 1, 0);
    sparse_schur::subtract_sparse(doubles, t, a, v, heading, parts::HEADING_LENGTH);
}
