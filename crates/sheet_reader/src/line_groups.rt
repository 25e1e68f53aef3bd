// Reads the runs of lines of a sheet (document 01, Record 1): from line to line, and no further than the first that is refused. What each answers
// is defined in the crate sheet, specs/Run.antt.
ghost use Rattle.std.specs.Prelude.{◌≡◌, ◌+◌, ◌*◌, ◌<◌, ◌≤◌, length, IfOk};
ghost use Rattle.sheet.specs.Line.{word_line};
ghost use Rattle.sheet.specs.Run.{cursor_at, reached, lines_of, row_from, rows_from, blocks_of, entries_from, prescribed_verdict, word_in, word_kind, words_of};

use crate::field::NOWHERE;
use crate::{block_line, line_verdict, pair_line, single_line, tag_field, yy_line};
use sheet::{Line, LineStart, SheetRefusal};

// The k block lines.
pub fn blocks(bytes: &[u8], k: u64, from: LineStart) -> Result<LineStart, SheetRefusal>
    requires { from.line + k < 9223372036854775808 }
    ensures past { result ≡ reached (blocks_of bytes.now k (cursor_at from)).past }
    ensures few { IfOk result (λ p. p.line ≤ from.line + k) }
{
    let mut p = from;
    for i in 0..k {
        let l = block_line::block_line(bytes, p.at);
        p = line_verdict::block(l, Ok(p))?;
    }
    Ok(p)
}

// All zz lines, no more than there are bytes: the first line with another tag ends them.
pub fn entries(bytes: &[u8], q: u64, from: LineStart) -> Result<LineStart, SheetRefusal>
    requires { from.line + length bytes.now < 9223372036854775808 }
    ensures past { result ≡ reached (entries_from (length bytes.now) bytes.now q 0 0 (cursor_at from)).past }
    ensures few { IfOk result (λ p. p.line ≤ from.line + length bytes.now) }
{
    let mut p = from;
    let mut col: u64 = 0;
    let mut row: u64 = 0;
    for i in 0..bytes.len() {
        let t = tag_field::tag(bytes, p.at, b"zz\t");
        if t.next == NOWHERE {
            return Ok(p);
        }
        let l = pair_line::pair_line(b"zz\t", bytes, p.at);
        p = line_verdict::entry(l, q, col, row, Ok(p))?;
        col = l.first;
        row = l.second + 1;
    }
    Ok(p)
}

// A line of `numbers` numbers (2, 1 or 0) and a word.
fn word_line(bytes: &[u8], t: &[u8], numbers: u64, at: usize) -> Line
    ensures { result ≡ word_line numbers t.now bytes.now at }
{
    if 1 < numbers {
        return pair_line::pair_line(t, bytes, at);
    }
    if numbers == 1 {
        return single_line::single_line(t, bytes, at);
    }
    yy_line::bare_line(t, bytes, at)
}

// The lines of one row, `width` of them.
fn row_words(
    bytes: &[u8],
    t: &[u8],
    numbers: u64,
    row: u64,
    width: u64,
    from: LineStart,
) -> Result<LineStart, SheetRefusal>
    requires { from.line + width < 9223372036854775808 }
    ensures { result ≡ reached (lines_of (word_line numbers t.now bytes.now) prescribed_verdict word_in (row_from row 0 width) (cursor_at from)).past }
{
    let mut p = from;
    for col in 0..width {
        let l = word_line(bytes, t, numbers, p.at);
        p = line_verdict::prescribed(l, row, col, Ok(p))?;
    }
    Ok(p)
}

// The lines of `rows` rows, first + step * r of them in row r: each of `numbers` numbers (2, 1 or 0) and a word. They are few, so that the numbers
// of lines have room.
pub fn words(
    bytes: &[u8],
    t: &[u8],
    numbers: u64,
    first: u64,
    step: u64,
    rows: u64,
    from: LineStart,
) -> Result<LineStart, SheetRefusal>
    requires { (rows * (first + step * rows) ≤ 16777216) × (from.line ≤ 4294967296) }
    ensures past { result ≡ reached (words_of bytes.now (word_kind t.now numbers (rows_from (λ r. first + step * r) 0 rows)) (cursor_at from)).past }
    ensures few { IfOk result (λ p. p.line ≤ from.line + 16777216) }
{
    let mut p = from;
    for r in 0..rows {
        p = row_words(bytes, t, numbers, r, first + step * r, p)?;
    }
    Ok(p)
}
