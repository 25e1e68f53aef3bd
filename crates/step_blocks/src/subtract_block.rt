// The steps S (document 01, Record 4) on a workspace: each kind of target by its kernel, with the places and the rows of the blocks from the layout.
ghost use Rattle.std.specs.Prelude.{◌≡◌, length};
ghost use Rattle.storage.specs.Part.{store};
ghost use Rattle.step_order.specs.Steps.{S, IsStep};
ghost use Rattle.layout.specs.Shapes.{working_at};
ghost use Rattle.heading_format.specs.Fits.{Fits};
ghost use Rattle.update.specs.Calls.{made_by};

use crate::{subtract_dense, subtract_square};
use block_places::block_kinds;
use layout::{FactorKind, Layout};

// S(i, j, x) on a workspace: its own block by its rule, nothing else.
pub fn subtract(layout: Layout, heading: &[u32], doubles: &mut [f64], i: u64, j: u64, x: u64)
    requires { Fits layout heading.now (length doubles.old) × IsStep layout.k (S i j x) }
    ensures { doubles.new ≡ store (working_at layout i j) (made_by heading.now doubles.old (S i j x)) doubles.old }
{
    if j == layout.k {
        subtract_dense::subtract_last_block(layout, doubles, x);
        return;
    }
    if i != j {
        if layout.sparse {
            subtract_square::subtract_sparse_block(layout, heading, doubles);
            return;
        }
        subtract_dense::subtract_dense_block(layout, doubles, i, j, x);
        return;
    }
    match block_kinds::factor_kind(layout, j) {
        FactorKind::Diagonal => {
            if layout.sparse {
                subtract_square::subtract_diagonal_sparse_block(layout, heading, doubles);
                return;
            }
            subtract_square::subtract_diagonal_block(layout, doubles);
        }
        FactorKind::Packed => subtract_square::subtract_triangle_block(layout, doubles, j, x),
    }
}
