// The call `load` (document 01, Record 3): a sheet's numbers into a workspace, or the first of the refusals 1 to 12 with all memory as it was. What
// it answers and leaves is defined in the crate workspace, specs/Load.antt. And the call `needs`: how long the workspace has to be. What it answers is
// defined in specs/room/Needs.antt.
#![tactic(auto)]

pub mod judge;
pub mod room;
mod write_loaded;

ghost use Rattle.std.specs.Prelude.{◌≡◌};
ghost use Rattle.sheet.specs.Sheet.{Sheet, accepted, read_sheet};
ghost use Rattle.sheet.specs.Fault.{fault_number};
ghost use Rattle.refusal.specs.Numbers.{meaning};
ghost use Rattle.workspace.specs.Answers.{workspace};
ghost use Rattle.workspace.specs.Load.{load_sheet, load_of};
ghost use Rattle.load.specs.room.Needs.{needs_meaning, needs_of};

use refusal::Refusal;
use room::Room;
use sheet::Starts;

// A sheet that 1 to 9 do not refuse: 10 and 11, then 12, or it is loaded.
pub fn load_sheet(
    bytes: &[u8],
    starts: Starts,
    heading: &mut [u32],
    doubles: &mut [f64],
) -> Result<(), Refusal>
    requires { (sheet : Sheet) × (read_sheet bytes.now ≡ accepted sheet starts) × (fault_number sheet ≡ 0) }
    ensures { (sheet : Sheet) → read_sheet bytes.now ≡ accepted sheet starts → record { answer = result; left = workspace heading.new doubles.new } ≡ load_sheet sheet heading.old doubles.old }
{
    let layout = judge::judge_sheet(bytes, starts)?;
    write_loaded::load_judged(bytes, starts, layout, heading, doubles)
}

// Any bytes on any memory: 1 to 11, then 12, or the sheet is loaded.
pub fn load(bytes: &[u8], heading: &mut [u32], doubles: &mut [f64]) -> Result<(), Refusal>
    ensures { (meaning result ≡ meaning (load_of bytes.now heading.old doubles.old).answer) × (workspace heading.new doubles.new ≡ (load_of bytes.now heading.old doubles.old).left) }
{
    let passed = judge::judge(bytes)?;
    write_loaded::load_judged(bytes, passed.starts, passed.layout, heading, doubles)
}

// How long the lists have to be that load is lent with these bytes; or 1 to 11, which load refuses them with whatever it is lent.
pub fn needs(bytes: &[u8]) -> Result<Room, Refusal>
    ensures { needs_meaning result ≡ needs_meaning (needs_of bytes.now) }
{
    let passed = judge::judge(bytes)?;
    Ok(room::room_of(passed.layout))
}
