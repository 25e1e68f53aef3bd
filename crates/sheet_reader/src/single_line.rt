// Reads a line of a sheet (document 01, Record 1) with one number and a word.
ghost use Rattle.std.specs.Prelude.{◌≡◌};
ghost use Rattle.sheet.specs.Line.{single_line};

use crate::field::TAB;
use crate::{field, tag_field, word_field};
use sheet::Line;

// A tag, a number and a word.
pub fn single_line(t: &[u8], bytes: &[u8], at: usize) -> Line
    ensures { result ≡ single_line t.now bytes.now at }
{
    let o = tag_field::tag(bytes, at, t);
    let i = field::number(bytes, o.next, TAB);
    let w = word_field::word(bytes, i.next);
    Line {
        first: i.value,
        second: 0,
        word: w.value,
        next: w.next,
    }
}
