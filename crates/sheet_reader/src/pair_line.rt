// Reads a line of a sheet with two numbers and a word (document 01, Record 1), at any position of any bytes: each field stands where the one before
// it ends. What it answers is defined in the crate sheet, specs/Line.antt.
ghost use Rattle.std.specs.Prelude.{◌≡◌};
ghost use Rattle.sheet.specs.Line.{pair_line};

use crate::field::TAB;
use crate::{field, tag_field, word_field};
use sheet::Line;

// A tag, two numbers and a word. (A line with one number and one with none have functions of their own, single_line and yy_line: one over the count
// of numbers would need a loop and an array for two names.)
pub fn pair_line(t: &[u8], bytes: &[u8], at: usize) -> Line
    ensures { result ≡ pair_line t.now bytes.now at }
{
    let o = tag_field::tag(bytes, at, t);
    let a = field::number(bytes, o.next, TAB);
    let b = field::number(bytes, a.next, TAB);
    let w = word_field::word(bytes, b.next);
    Line {
        first: a.value,
        second: b.value,
        word: w.value,
        next: w.next,
    }
}
