// Past one line of a sheet (document 01, Record 1): where the next line starts, or its refusal 2, 3 or 4. What each answers is defined in the
// crate sheet, specs/Run.antt.
ghost use Rattle.std.specs.Prelude.{◌≡◌, ◌+◌, ◌<◌, [], ◌∷◌, IfOk};
ghost use Rattle.sheet.specs.Line.{verdict_of};
ghost use Rattle.sheet.specs.Run.{past_line, is_between, block_verdict, not_before, entry_verdict, prescribed_verdict};

use crate::field::NOWHERE;
use crate::word_class;
use sheet::{Line, LineStart, SheetRefusal};

// Past a line that is in form, whose word is finite and whose numbers are within their ranges; else it is refused, with 2, 3 or 4 in that order.
// A refusal before it is handed on.
#[tactic(auto, unfolding(sheet::specs::Run::pass_of))]
fn pass(
    from: Result<LineStart, SheetRefusal>,
    form: bool,
    finite: bool,
    within: bool,
    next: usize,
) -> Result<LineStart, SheetRefusal>
    requires { IfOk from (λ p. p.line < 9223372036854775808) }
    ensures { result ≡ past_line from (verdict_of ((form, 2) ∷ (finite, 3) ∷ (within, 4) ∷ [])) next }
{
    let p = from?;
    let line = p.line;
    if !form {
        return Err(SheetRefusal { number: 2, line });
    }
    if !finite {
        return Err(SheetRefusal { number: 3, line });
    }
    if !within {
        return Err(SheetRefusal { number: 4, line });
    }
    Ok(LineStart {
        at: next,
        line: line + 1,
    })
}

// low <= x <= high
pub fn between(low: u64, x: u64, high: u64) -> bool
    ensures { result ≡ is_between low x high }
{
    (low..=high).contains(&x)
}

// Past a block line; its verdict asks for no indexes.
pub fn block(l: Line, from: Result<LineStart, SheetRefusal>) -> Result<LineStart, SheetRefusal>
    requires { IfOk from (λ p. p.line < 9223372036854775808) }
    ensures { result ≡ past_line from (block_verdict (0, 0) l) l.next }
{
    let within = between(1, l.first, 65535) & between(1, l.second, 16);
    pass(from, l.next != NOWHERE, true, within, l.next)
}

// Whether (col, row) is not before (col0, row0), by column then row.
fn not_before(col0: u64, row0: u64, col: u64, row: u64) -> bool
    ensures { result ≡ not_before col0 row0 col row }
{
    (col0 < col) | ((col0 == col) & (row0 <= row))
}

// Past a zz line, where (col, row) is the first place that comes past the line before.
pub fn entry(
    l: Line,
    q: u64,
    col: u64,
    row: u64,
    from: Result<LineStart, SheetRefusal>,
) -> Result<LineStart, SheetRefusal>
    requires { IfOk from (λ p. p.line < 9223372036854775808) }
    ensures { result ≡ past_line from (entry_verdict q col row l) l.next }
{
    let form = (l.next != NOWHERE) & not_before(col, row, l.first, l.second);
    let within = (l.first < q) & (l.second < q);
    pass(from, form, word_class::is_finite(l.word), within, l.next)
}

// Past a line with a word, whose numbers are to be (row, col).
pub fn prescribed(
    l: Line,
    row: u64,
    col: u64,
    from: Result<LineStart, SheetRefusal>,
) -> Result<LineStart, SheetRefusal>
    requires { IfOk from (λ p. p.line < 9223372036854775808) }
    ensures { result ≡ past_line from (prescribed_verdict (row, col) l) l.next }
{
    let form = (l.next != NOWHERE) & (l.first == row) & (l.second == col);
    pass(from, form, word_class::is_finite(l.word), true, l.next)
}
