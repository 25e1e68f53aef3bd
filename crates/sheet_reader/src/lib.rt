// Reads a sheet (document 01, Record 1) and finds its refusals 1 to 4: 1 first; then the lines downwards, on a line 2, 3, 4. What it answers is
// defined in the crate sheet, specs/Sheet.antt and specs/Answer.antt.
#![tactic(auto)]

pub mod block_line;
pub mod field;
mod line_groups;
pub mod line_verdict;
pub mod pair_line;
mod sheet_lines;
pub mod single_line;
mod size_line;
mod size_ranges;
mod tag_field;
pub mod word_class;
mod word_field;
pub mod yy_line;

ghost use Rattle.std.specs.Prelude.{◌≡◌};
ghost use Rattle.sheet.specs.Sheet.{read_sheet, sheet_of};
ghost use Rattle.sheet.specs.Answer.{reading_of};

use field::NOWHERE;
use sheet::{LineStart, SheetRefusal, Starts};

// A sheet, whatever stands behind its yy line.
pub fn read_prefix(bytes: &[u8]) -> Result<Starts, SheetRefusal>
    ensures { result ≡ reading_of (read_sheet bytes.now) }
{
    if 16777216 < bytes.len() {
        return Err(SheetRefusal { number: 1, line: 0 });
    }
    let z = size_line::size_line(bytes, 0);
    if z.next == NOWHERE {
        return Err(SheetRefusal { number: 2, line: 1 });
    }
    let counts = z.counts;
    if !size_ranges::counts_within(counts) {
        return Err(SheetRefusal { number: 4, line: 1 });
    }
    let second = LineStart {
        at: z.next,
        line: 2,
    };
    sheet_lines::lines(bytes, counts, second)
}

// The sheet that load is given: all of the bytes.
pub fn read_sheet(bytes: &[u8]) -> Result<Starts, SheetRefusal>
    ensures { result ≡ reading_of (sheet_of bytes.now) }
{
    let starts = read_prefix(bytes)?;
    if starts.end == bytes.len() {
        return Ok(starts);
    }
    Err(SheetRefusal {
        number: 2,
        line: starts.line,
    })
}
