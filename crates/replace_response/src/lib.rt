// The call `replace_response` (document 01, Record 3): a new response for the old in a workspace. Refused with 20, 13 or 14. What it answers and
// leaves is `replace_of` of the crate workspace, specs/Response.antt.
#![tactic(auto)]

pub mod finite;
pub mod list_faults;
pub mod write_rows;

ghost use Rattle.std.specs.Prelude.{◌≡◌, true, ◌≤◌, length};
ghost use Rattle.layout.specs.Shapes.{loaded_length};
ghost use Rattle.heading_format.specs.Heading.{valid_layout, idle, valid_heading};
ghost use Rattle.refusal.specs.Numbers.{meaning};
ghost use Rattle.workspace.specs.Memory.{heading_with};
ghost use Rattle.workspace.specs.Answers.{workspace};
ghost use Rattle.workspace.specs.Response.{response, Prescribed, replace_of};
ghost use Rattle.replace_response.specs.write_rows.Strided.{response_rows};
ghost use Rattle.heading_format.specs.Parts.{heading_length};

use heading::{idle_progress, writer};
use layout::Layout;
use refusal::Refusal;

// Writes the response and progress none.
fn write(
    layout: Layout,
    heading: &mut [u32],
    doubles: &mut [f64],
    zty: &[f64],
    xty: &[f64],
    yty: &[f64],
)
    requires { (heading_length ≤ length heading.old) × (valid_layout layout ≡ true) × (loaded_length layout ≤ length doubles.old) × Prescribed layout (response zty.now xty.now yty.now) }
    ensures { (heading.new ≡ heading_with heading.old (idle layout.k)) × (doubles.new ≡ response_rows layout (response zty.now xty.now yty.now) doubles.old) }
{
    write_rows::write_response(layout, doubles, zty, xty, yty);
    writer::write_progress(heading, idle_progress::idle(layout.k));
}

// The response of a workspace: 13, every length before any word; 14; else it is written.
fn replace_valid(
    heading: &mut [u32],
    doubles: &mut [f64],
    zty: &[f64],
    xty: &[f64],
    yty: &[f64],
) -> Result<(), Refusal>
    requires { valid_heading heading.old (length doubles.old) ≡ true }
    ensures { record { answer = result; left = workspace heading.new doubles.new } ≡ replace_of heading.old doubles.old (response zty.now xty.now yty.now) }
{
    let layout = heading::layout(heading);
    list_faults::check_lists(layout, zty, xty, yty)?;
    write(layout, heading, doubles, zty, xty, yty);
    Ok(())
}

// A new response for the old, and progress none; no working double is touched. Any numbers, doubles and lists may be lent; where they are refused, with
// 20, 13 (the list) or 14 (the list and the index), all is left untouched.
pub fn replace_response(
    heading: &mut [u32],
    doubles: &mut [f64],
    zty: &[f64],
    xty: &[f64],
    yty: &[f64],
) -> Result<(), Refusal>
    ensures { (meaning result ≡ meaning (replace_of heading.old doubles.old (response zty.now xty.now yty.now)).answer) × (workspace heading.new doubles.new ≡ (replace_of heading.old doubles.old (response zty.now xty.now yty.now)).left) }
{
    if !heading_check::is_valid_heading(heading, doubles.len()) {
        return Err(Refusal::NoWorkspace);
    }
    replace_valid(heading, doubles, zty, xty, yty)
}
