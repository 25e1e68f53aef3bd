// Judging a sheet before anything is written (document 01, "Refused because of the input"): the first of its refusals 1 to 11, or what it is written by.
ghost use Rattle.std.specs.Prelude.{◌≡◌, ◌≤◌};
ghost use Rattle.sheet.specs.Sheet.{Sheet, accepted, read_sheet};
ghost use Rattle.sheet.specs.Fault.{fault_number};
ghost use Rattle.refusal.specs.Numbers.{refusal};
ghost use Rattle.load.specs.judge.Judged.{layout_judged, judged_of};

use layout::Layout;
use layout_gate::gate_search;
use refusal::Refusal;
use sheet::{SheetRefusal, Starts};

// A sheet that 1 to 11 do not refuse: where its lines start, and how its workspace is laid out.
#[derive(Clone, Copy)]
pub struct Passed {
    pub starts: Starts,
    pub layout: Layout,
}

// The layout of a sheet that 1 to 9 do not refuse: 10 and 11.
pub fn judge_sheet(bytes: &[u8], starts: Starts) -> Result<Layout, Refusal>
    requires { (sheet : Sheet) × (read_sheet bytes.now ≡ accepted sheet starts) × (fault_number sheet ≡ 0) }
    ensures { (sheet : Sheet) → read_sheet bytes.now ≡ accepted sheet starts → result ≡ layout_judged sheet }
{
    let layout = layout_gate::layout_of_sheet(bytes, starts);
    match gate_search::first_refused_pair(layout) {
        Some(refusal) => Err(refusal),
        None => Ok(layout),
    }
}

// What the reader refuses, as any call's refusal.
fn refusal(r: SheetRefusal) -> Refusal
    requires { (1 ≤ r.number) × (r.number ≤ 9) }
    ensures { result ≡ refusal r.number r.line 0 }
{
    let line = r.line;
    match r.number {
        1 => Refusal::SheetTooLong,
        2 => Refusal::OutOfForm { line },
        3 => Refusal::WordNotFinite { line },
        4 => Refusal::OutOfRange { line },
        5 => Refusal::NotInterceptOnly,
        6 => Refusal::EmptyRe,
        7 => Refusal::Slopes,
        8 => Refusal::DimMismatch,
        _ => Refusal::FaultyEntry { line },
    }
}

// Any bytes: 1 to 9 as the reader answers them, or the sheet goes on.
pub fn judge(bytes: &[u8]) -> Result<Passed, Refusal>
    ensures { result ≡ judged_of bytes.now }
{
    let starts = match sheet_checks::read_and_check(bytes) {
        Ok(starts) => starts,
        Err(r) => return Err(refusal(r)),
    };
    let layout = judge_sheet(bytes, starts)?;
    Ok(Passed { starts, layout })
}
