// Reads the tag of a line of a sheet (document 01, Record 1).
ghost use Rattle.std.specs.Prelude.{◌≡◌, ◌+◌, ◌<◌};
ghost use Rattle.sheet.specs.Line.{tag_to};

use crate::field::UNFOUND;
use sheet::Field;

// The bytes `t` at a position, and the position past them.
pub fn tag(bytes: &[u8], at: usize, t: &[u8]) -> Field
    ensures { result ≡ tag_to t.now bytes.now at }
{
    let mut i = at;
    for k in 0..t.len() {
        if bytes.len() <= i {
            return UNFOUND;
        }
        if bytes[i] != t[k] {
            return UNFOUND;
        }
        i += 1;
    }
    Field { value: 0, next: i }
}
