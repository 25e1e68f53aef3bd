// What a step hands back, by value, and what a refused pivot leaves (document 01, Record 5 and number 26).
ghost use Rattle.std.specs.Prelude.{◌≡◌, ◌≤◌, ◌<◌, length};
ghost use Rattle.workspace.specs.Memory.{cleared};
ghost use Rattle.heading_format.specs.Fits.{Room};

use block_places::places;
use heading_format::Progress;
use layout::Layout;
use refusal::Refusal;

// What a step answers, and the progress that it hands back.
#[derive(Clone, Copy)]
pub struct StepResult {
    pub answer: Result<(), Refusal>,
    pub progress: Progress,
}

// Every working double +0.0: theta, the blocks and the sum.
pub fn clear_working(layout: Layout, doubles: &mut [f64])
    requires { Room layout (length doubles.old) }
    ensures { doubles.new ≡ cleared layout doubles.old }
{
    let from = places::theta_at(layout);
    let end = places::working_end(layout);
    doubles[from..end].fill(0.0);
}
