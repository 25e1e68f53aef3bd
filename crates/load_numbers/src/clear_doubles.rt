// All doubles that the formula counts, cleared (document 01, Record 3): nothing past the formula is written.
ghost use Rattle.std.specs.Prelude.{◌≡◌, ◌+◌, ◌≤◌, length};
ghost use Rattle.storage.specs.Runs.{tab};
ghost use Rattle.storage.specs.Part.{store};
ghost use Rattle.rules.specs.Arithmetic.{ieee};
ghost use Rattle.layout.specs.Shapes.{doubles_needed};
ghost use Rattle.heading_format.specs.Fits.{Room};

use block_places::places;
use block_runs::runs;
use layout::Layout;

// Every double that the formula counts becomes +0.0.
pub fn clear_all(layout: Layout, doubles: &mut [f64])
    requires { Room layout (length doubles.old) }
    ensures { doubles.new ≡ store 0 (tab (doubles_needed layout) (λ i. ieee.zero)) doubles.old }
{
    runs::clear(doubles, places::doubles_needed(layout));
}
