// C taken (document 01, Records 4 and 5): the moved progress, or the refused pivot and what number 26 leaves.
ghost use Rattle.std.specs.Prelude.{◌≡◌, ◌≤◌, length};
ghost use Rattle.step_order.specs.Steps.{IsStep, C};
ghost use Rattle.heading_format.specs.Fits.{Fits};
ghost use Rattle.step.specs.step_result.Applied.{Applied};

use crate::step_result::StepResult;
use crate::{step_check, step_result};
use heading::idle_progress;
use heading_format::Progress;
use layout::Layout;
use refusal::Refusal;
use step_blocks::factor_block;

// C(j): its own block, the sum, and one step more; or, where a pivot is refused, the working doubles +0.0 and no update.
pub fn apply_factor(
    layout: Layout,
    progress: Progress,
    heading: &[u32],
    doubles: &mut [f64],
    j: u64,
) -> StepResult
    requires { Fits layout heading.now (length doubles.old) × IsStep layout.k (C j) × (1 ≤ progress.left) }
    ensures { Applied layout progress heading.now doubles.old doubles.new (C j) result }
{
    match factor_block::factor(layout, heading, doubles, j) {
        Err(refused) => {
            step_result::clear_working(layout, doubles);
            let idle = idle_progress::idle(layout.k);
            StepResult {
                answer: Err(Refusal::PivotRefused {
                    block: j,
                    row: refused.row as u64,
                }),
                progress: idle,
            }
        }
        Ok(()) => {
            let place = step_check::target_place(j, j);
            StepResult {
                answer: Ok(()),
                progress: progress.mark(place, j + 1),
            }
        }
    }
}
