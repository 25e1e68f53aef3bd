// Reads the size line of a sheet (document 01, Record 1).
ghost use Rattle.std.specs.Prelude.{◌≡◌};
ghost use Rattle.sheet.specs.Line.{size_line};

use crate::field::{LF, TAB};
use crate::{field, tag_field};
use sheet::{Counts, Size};

// `size` and five numbers.
pub fn size_line(bytes: &[u8], at: usize) -> Size
    ensures { result ≡ size_line bytes.now at }
{
    let t = tag_field::tag(bytes, at, b"size\t");
    let n = field::number(bytes, t.next, TAB);
    let p = field::number(bytes, n.next, TAB);
    let q = field::number(bytes, p.next, TAB);
    let k = field::number(bytes, q.next, TAB);
    let f = field::number(bytes, k.next, LF);
    Size {
        counts: Counts {
            n: n.value,
            p: p.value,
            q: q.value,
            k: k.value,
            flag: f.value,
        },
        next: f.next,
    }
}
