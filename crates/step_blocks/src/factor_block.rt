// C(j) on a workspace (document 01, Record 4): the factor of its own block, and its logarithms in the running sum. What it answers and leaves is
// defined in specs/factor_logs/Factors.antt.
ghost use Rattle.std.specs.Prelude.{◌≡◌, ◌≤◌, length};
ghost use Rattle.storage.specs.Placed.{Lies};
ghost use Rattle.step_order.specs.Steps.{IsStep, C};
ghost use Rattle.layout.specs.declared.FactorKind.TheVariants.{Packed};
ghost use Rattle.heading_format.specs.Fits.{Fits};
ghost use Rattle.block_places.specs.Working.{as_factor};
ghost use Rattle.step_blocks.specs.factor_logs.Factors.{BlockFactored, Factors};

use crate::factor_logs;
use block_places::block_kinds;
use layout::{FactorKind, Layout};
use re_lower::RefusedPivot;
use storage::Block;

// C on block b, by its kind.
fn factor_block(doubles: &mut [f64], kind: FactorKind, b: Block) -> Result<(), RefusedPivot>
    requires { Lies (length doubles.old) (as_factor kind b) × (kind ≡ Packed → b.rows ≤ 316) }
    ensures { BlockFactored (as_factor kind b) doubles.old doubles.new result }
{
    match kind {
        FactorKind::Diagonal => re_factor::chol_diagonal(doubles, b),
        FactorKind::Packed => re_factor::chol(doubles, b),
    }
}

// C(j): its own block and the running sum, unless a pivot is refused; then its own block at most.
pub fn factor(
    layout: Layout,
    heading: &[u32],
    doubles: &mut [f64],
    j: u64,
) -> Result<(), RefusedPivot>
    requires { Fits layout heading.now (length doubles.old) × IsStep layout.k (C j) }
    ensures { Factors layout heading.now doubles.old doubles.new j result }
{
    let b = block_places::block(layout, j, j);
    let kind = block_kinds::factor_kind(layout, j);
    factor_block(doubles, kind, b)?;
    factor_logs::add_logs(layout, doubles, kind, b, j);
    Ok(())
}
