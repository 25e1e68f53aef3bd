// Reads a line of a sheet (document 01, Record 1) with a word alone.
ghost use Rattle.std.specs.Prelude.{◌≡◌};
ghost use Rattle.sheet.specs.Line.{bare_line};

use crate::{tag_field, word_field};
use sheet::Line;

// A tag and a word.
pub fn bare_line(t: &[u8], bytes: &[u8], at: usize) -> Line
    ensures { result ≡ bare_line t.now bytes.now at }
{
    let o = tag_field::tag(bytes, at, t);
    let w = word_field::word(bytes, o.next);
    Line {
        first: 0,
        second: 0,
        word: w.value,
        next: w.next,
    }
}
