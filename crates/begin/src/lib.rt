// The call `begin` (document 01, Record 4): keeps theta and makes every working block of its loaded block, scaled. Refused with 20, 13 or 14. What it
// answers and leaves is `begin_of` of the crate update, specs/Calls.antt.
#![tactic(auto)]

mod init_blocks;
mod scaled_blocks;
mod write_begin;

ghost use Rattle.std.specs.Prelude.{◌≡◌, true, ◌≤◌, length};
ghost use Rattle.layout.specs.Shapes.{theta_length};
ghost use Rattle.heading_format.specs.Heading.{under_way, valid_heading};
ghost use Rattle.refusal.specs.Numbers.{meaning};
ghost use Rattle.workspace.specs.Memory.{heading_with};
ghost use Rattle.workspace.specs.Answers.{workspace};
ghost use Rattle.update.specs.Calls.{begin_of};
ghost use Rattle.begin.specs.write_begin.Begun.{DoublesBegun};
ghost use Rattle.heading_format.specs.Parts.{heading_length};
ghost use Rattle.heading_format.specs.Fits.{Room};

use block_places::places;
use heading::writer;
use layout::Layout;
use refusal::Refusal;
use replace_response::list_faults;

// The doubles, and the progress of an update just begun.
fn write(layout: Layout, heading: &mut [u32], doubles: &mut [f64], theta: &[f64])
    requires { (heading_length ≤ length heading.old) × Room layout (length doubles.old) × (length theta.now ≡ theta_length layout) }
    ensures { (heading.new ≡ heading_with heading.old (under_way layout.k)) × DoublesBegun layout theta.now doubles.old doubles.new }
{
    write_begin::write_doubles(layout, doubles, theta);
    writer::write_progress(heading, write_begin::under_way(layout.k));
}

// Begin in a workspace: 13 where theta has another length than the layout says, 14 where one is infinite or NaN; else all is written.
fn begin_valid(heading: &mut [u32], doubles: &mut [f64], theta: &[f64]) -> Result<(), Refusal>
    requires { valid_heading heading.old (length doubles.old) ≡ true }
    ensures { record { answer = result; left = workspace heading.new doubles.new } ≡ begin_of heading.old doubles.old theta.now }
{
    let layout = heading::layout(heading);
    if theta.len() != places::theta_length(layout) {
        return Err(Refusal::WrongLength { list: 0 });
    }
    list_faults::check_words(0, theta)?;
    write(layout, heading, doubles, theta);
    Ok(())
}

// Begin (document 01, Record 4). Any numbers, doubles and theta may be lent; where they are refused, with 20, 13 (list 0) or 14 (list 0 and the index),
// all is left untouched.
pub fn begin(heading: &mut [u32], doubles: &mut [f64], theta: &[f64]) -> Result<(), Refusal>
    ensures { (meaning result ≡ meaning (begin_of heading.old doubles.old theta.now).answer) × (workspace heading.new doubles.new ≡ (begin_of heading.old doubles.old theta.now).left) }
{
    if !heading_check::is_valid_heading(heading, doubles.len()) {
        return Err(Refusal::NoWorkspace);
    }
    begin_valid(heading, doubles, theta)
}
