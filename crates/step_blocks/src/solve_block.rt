// The steps T (document 01, Record 4) on a workspace: by a diagonal factor or by a triangle, with the blocks from the layout.
ghost use Rattle.std.specs.Prelude.{◌≡◌, true, false, ◌⊎◌, ◌≤◌, ◌<◌, length};
ghost use Rattle.storage.specs.Part.{store};
ghost use Rattle.storage.specs.Placed.{block_of};
ghost use Rattle.step_order.specs.Steps.{T, IsStep};
ghost use Rattle.layout.specs.declared.FactorKind.TheVariants.{Diagonal, Packed};
ghost use Rattle.layout.specs.Shapes.{factor_kind, working_at};
ghost use Rattle.heading_format.specs.Fits.{Fits, Room};
ghost use Rattle.cross_block.specs.Blocks.{divided_columns, solved_rows};
ghost use Rattle.block_places.specs.block_kinds.Rows.{rows_of};
ghost use Rattle.block_places.specs.Working.{working};
ghost use Rattle.update.specs.Calls.{made_by};

use block_places::block_kinds;
use cross_block::divide_columns;
use layout::{FactorKind, Layout};
use storage::Block;

// T(i, j) of a dense block by a diagonal: each column divided by its pivot.
fn divide(layout: Layout, doubles: &mut [f64], i: u64, j: u64)
    requires { Room layout (length doubles.old) × (j < i) × (i ≤ layout.k) × (factor_kind layout j ≡ Diagonal) × ((i ≡ layout.k) ⊎ (layout.sparse ≡ false)) }
    ensures { doubles.new ≡ divided_columns (working layout i j) (working layout j j) doubles.old }
{
    let t = block_places::block(layout, i, j);
    let f = block_places::block(layout, j, j);
    divide_columns::divide_columns(doubles, t, f);
}

// T(1, 0) of a sparse pair: its entries, one a column, are a dense block of one row.
fn divide_entries(layout: Layout, doubles: &mut [f64])
    requires { Room layout (length doubles.old) × (layout.sparse ≡ true) × (layout.k ≡ 2) }
    ensures { doubles.new ≡ divided_columns (block_of (working_at layout 1 0) 1 (rows_of layout 0)) (working layout 0 0) doubles.old }
{
    let v = block_places::block(layout, 1, 0);
    let f = block_places::block(layout, 0, 0);
    divide_columns::divide_columns(
        doubles,
        Block {
            at: v.at,
            rows: 1,
            cols: v.cols,
        },
        f,
    );
}

// T(i, j) by a triangle: forward substitution in each row.
fn substitute(layout: Layout, doubles: &mut [f64], i: u64, j: u64)
    requires { Room layout (length doubles.old) × (j < i) × (i ≤ layout.k) × (factor_kind layout j ≡ Packed) }
    ensures { doubles.new ≡ solved_rows (working layout i j) (working layout j j) doubles.old }
{
    let t = block_places::block(layout, i, j);
    let f = block_places::block(layout, j, j);
    cross_block::solve_rows(doubles, t, f);
}

// T(i, j) on a workspace: its own block by its rule, nothing else.
pub fn solve(layout: Layout, heading: &[u32], doubles: &mut [f64], i: u64, j: u64)
    requires { Fits layout heading.now (length doubles.old) × IsStep layout.k (T i j) }
    ensures { doubles.new ≡ store (working_at layout i j) (made_by heading.now doubles.old (T i j)) doubles.old }
{
    if layout.sparse {
        if i != layout.k {
            divide_entries(layout, doubles);
            return;
        }
    }
    match block_kinds::factor_kind(layout, j) {
        FactorKind::Diagonal => divide(layout, doubles, i, j),
        FactorKind::Packed => substitute(layout, doubles, i, j),
    }
}
