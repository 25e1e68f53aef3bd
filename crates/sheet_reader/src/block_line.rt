// Reads a block line of a sheet, which holds counts alone (document 01, Record 1), as pair_line reads those with a word.
ghost use Rattle.std.specs.Prelude.{◌≡◌};
ghost use Rattle.sheet.specs.Line.{block_line};

use crate::field::{LF, TAB};
use crate::{field, tag_field};
use sheet::Line;

// `block` and two numbers.
pub fn block_line(bytes: &[u8], at: usize) -> Line
    ensures { result ≡ block_line bytes.now at }
{
    let t = tag_field::tag(bytes, at, b"block\t");
    let m = field::number(bytes, t.next, TAB);
    let e = field::number(bytes, m.next, LF);
    Line {
        first: m.value,
        second: e.value,
        word: 0,
        next: e.next,
    }
}
