// Refusals 1 to 9 of a sheet (document 01): 1 to 4 by the reader, then 5 to 9, each over the whole sheet, in that order. Mirrors of `zz` lines are
// found by one cursor a column (modules mirror*). What is answered is defined in the crate sheet (specs/Fault.antt, specs/Answer.antt).
#![tactic(auto)]

pub mod levels;
mod mirror;
pub mod mirror_cursor;
mod mirror_scan;
mod mirror_step;

ghost use Rattle.std.specs.Prelude.{◌≡◌};
ghost use Rattle.sheet.specs.Sheet.{Sheet, accepted, read_sheet, sheet_of};
ghost use Rattle.sheet.specs.Answer.{judged};

use sheet::{SheetRefusal, Starts};

// What 5 to 9 say of a sheet that 1 to 4 do not refuse, whose lines start at `starts`, whatever stands behind it.
pub fn check_sheet(bytes: &[u8], starts: Starts) -> Result<Starts, SheetRefusal>
    requires { (sheet : Sheet) × (read_sheet bytes.now ≡ accepted sheet starts) }
    ensures { result ≡ judged (read_sheet bytes.now) }
{
    if starts.counts.flag == 0 {
        return Err(SheetRefusal { number: 5, line: 0 });
    }
    if starts.counts.k == 0 {
        return Err(SheetRefusal { number: 6, line: 0 });
    }
    let slope = levels::has_slope(bytes, starts);
    let m = levels::levels(bytes, starts);
    let uncovered = levels::total(m) != starts.counts.q;
    if slope {
        return Err(SheetRefusal { number: 7, line: 0 });
    }
    if uncovered {
        return Err(SheetRefusal { number: 8, line: 0 });
    }
    if let Some(line) = mirror::faulty_line(bytes, starts, m) {
        return Err(SheetRefusal { number: 9, line });
    }
    Ok(starts)
}

// What 1 to 9 say of the sheet that any bytes begin with.
pub fn read_and_check_prefix(bytes: &[u8]) -> Result<Starts, SheetRefusal>
    ensures { result ≡ judged (read_sheet bytes.now) }
{
    let starts = sheet_reader::read_prefix(bytes)?;
    check_sheet(bytes, starts)
}

// What 1 to 9 say of any bytes.
pub fn read_and_check(bytes: &[u8]) -> Result<Starts, SheetRefusal>
    ensures { result ≡ judged (sheet_of bytes.now) }
{
    let starts = sheet_reader::read_sheet(bytes)?;
    check_sheet(bytes, starts)
}
