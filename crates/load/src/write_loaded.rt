// Loads a sheet that is judged (document 01, Record 3): 12, or heading and doubles written.
ghost use Rattle.std.specs.Prelude.{◌≡◌, ◌≤◌, length, None};
ghost use Rattle.storage.specs.Part.{store};
ghost use Rattle.sheet.specs.Sheet.{Sheet, accepted, read_sheet};
ghost use Rattle.layout.specs.Shapes.{doubles_needed};
ghost use Rattle.heading_format.specs.Heading.{numbers_needed};
ghost use Rattle.workspace.specs.Answers.{workspace};
ghost use Rattle.workspace.specs.Load.{heading_of, doubles_of, after_gate};
ghost use Rattle.load_numbers.specs.sheet_words.Ready.{Ready};

use crate::room;
use heading::{idle_progress, writer};
use layout::Layout;
use load_numbers::sheet_words;
use refusal::Refusal;
use sheet::Starts;

// The heading of a sheet just loaded.
fn write_heading(bytes: &[u8], starts: Starts, layout: Layout, heading: &mut [u32])
    requires { Ready bytes.now starts layout × (numbers_needed layout ≤ length heading.old) }
    ensures { (sheet : Sheet) → read_sheet bytes.now ≡ accepted sheet starts → heading.new ≡ store 0 (heading_of sheet layout) heading.old }
{
    writer::write(heading, layout, idle_progress::idle(layout.k));
    load_numbers::load_entry_rows(bytes, starts, layout, heading);
}

// Heading and doubles of a sheet that is judged and fits.
fn write_sheet(
    bytes: &[u8],
    starts: Starts,
    layout: Layout,
    heading: &mut [u32],
    doubles: &mut [f64],
)
    requires { Ready bytes.now starts layout × (numbers_needed layout ≤ length heading.old) × (doubles_needed layout ≤ length doubles.old) }
    ensures { (sheet : Sheet) → read_sheet bytes.now ≡ accepted sheet starts → (heading.new ≡ store 0 (heading_of sheet layout) heading.old) × (doubles.new ≡ store 0 (doubles_of sheet layout) doubles.old) }
{
    write_heading(bytes, starts, layout, heading);
    sheet_words::load_numbers(bytes, starts, layout, doubles);
}

// A sheet that is judged: 12, or it is written.
pub fn load_judged(
    bytes: &[u8],
    starts: Starts,
    layout: Layout,
    heading: &mut [u32],
    doubles: &mut [f64],
) -> Result<(), Refusal>
    requires { Ready bytes.now starts layout }
    ensures { (sheet : Sheet) → read_sheet bytes.now ≡ accepted sheet starts → record { answer = result; left = workspace heading.new doubles.new } ≡ after_gate None sheet layout heading.old doubles.old }
{
    if !room::has_room(layout, heading, doubles) {
        return Err(Refusal::WorkspaceTooShort);
    }
    write_sheet(bytes, starts, layout, heading, doubles);
    Ok(())
}
