// What a caller may look at in a workspace: the steps left, the log determinant and the pivots (document 01, Record 5 and "Worked sheets"). Refused
// with 20 or 25. What each answers is defined in specs/Views.antt.
#![tactic(auto)]

pub mod pivot_places;

ghost use Rattle.std.specs.Prelude.{◌≡◌, ◌<◌, ◌≤◌, length};
ghost use Rattle.heading_format.specs.Heading.{progress_of};
ghost use Rattle.profile.specs.Deviance.{is_finished};
ghost use Rattle.views.specs.Views.{steps_meaning, view_meaning, value_meaning, steps_left_of, determinant_of, pivot_of, pivot_view};
ghost use Rattle.heading_format.specs.Parts.{heading_length};
ghost use Rattle.heading_format.specs.Fits.{Room};

use block_places::block_kinds;
use deviance::deviance_tail;
use layout::Layout;
use refusal::Refusal;

// More doubles than any workspace has.
const LARGE: usize = 2199023255552;

// How many steps are left; 20 by the heading alone.
pub fn steps_left(heading: &[u32]) -> Result<u64, Refusal>
    ensures { steps_meaning result ≡ steps_meaning (steps_left_of heading.now) }
{
    if !heading_check::is_valid_heading(heading, LARGE) {
        return Err(Refusal::NoWorkspace);
    }
    let progress = heading::progress(heading);
    Ok(progress.left)
}

// The log determinant of a finished factor: 20, 25.
pub fn log_determinant(heading: &[u32], doubles: &[f64]) -> Result<f64, Refusal>
    ensures { value_meaning result ≡ value_meaning (determinant_of heading.now doubles.now) }
{
    let layout = deviance::finished_layout(heading, doubles.len())?;
    Ok(deviance_tail::log_determinant(layout, doubles))
}

// Pivot r of block j where there is one.
fn pivot_of_layout(layout: Layout, doubles: &[f64], j: u64, r: u64) -> Option<f64>
    requires { Room layout (length doubles.now) }
    ensures { result ≡ pivot_view layout doubles.now j r }
{
    if j <= layout.k {
        if r < block_kinds::rows_of(layout, j) as u64 {
            return Some(pivot_places::read_pivot(layout, doubles, j, r));
        }
    }
    None
}

// Pivot `row` of block `block` of a finished factor: 20, 25. Any numbers may be asked for.
pub fn pivot(heading: &[u32], doubles: &[f64], block: u64, row: u64) -> Result<Option<f64>, Refusal>
    ensures { view_meaning result ≡ view_meaning (pivot_of heading.now doubles.now block row) }
{
    let layout = deviance::finished_layout(heading, doubles.len())?;
    Ok(pivot_of_layout(layout, doubles, block, row))
}
