// What begin writes to the doubles and to progress (document 01, Records 4 and 5).
ghost use Rattle.std.specs.Prelude.{◌≡◌, ◌≤◌, length};
ghost use Rattle.layout.specs.Shapes.{theta_length};
ghost use Rattle.heading_format.specs.Heading.{under_way};
ghost use Rattle.begin.specs.write_begin.Begun.{DoublesBegun};
ghost use Rattle.heading_format.specs.Fits.{Room};

use crate::init_blocks;
use block_places::places;
use block_runs::runs;
use heading::idle_progress;
use heading_format::{Progress, State};
use layout::Layout;

// An update just begun: no step is done, every one is left.
pub fn under_way(k: u64) -> Progress
    requires { k ≤ 8 }
    ensures { result ≡ under_way k }
{
    heading_format::undone(State::UnderWay, idle_progress::step_count(k))
}

// Theta, the working blocks and the sum.
pub fn write_doubles(layout: Layout, doubles: &mut [f64], theta: &[f64])
    requires { Room layout (length doubles.old) × (length theta.now ≡ theta_length layout) }
    ensures { DoublesBegun layout theta.now doubles.old doubles.new }
{
    let at = places::theta_at(layout);
    let sum = places::sum_at(layout);
    let k = theta.len();
    runs::copy(doubles, at, k, theta, 0);
    init_blocks::init_blocks(layout, doubles, theta);
    doubles[sum] = 0.0;
}
