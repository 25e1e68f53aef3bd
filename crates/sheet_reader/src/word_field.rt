// Reads a word of a sheet (document 01, Record 1) and the LF behind it. What it answers is defined in the crate sheet, specs/Field.antt.
ghost use Rattle.std.specs.Prelude.{◌≡◌, ◌+◌, ◌*◌, ◌<◌, drop};
ghost use Rattle.sheet.specs.Field.{end_at};
ghost use Rattle.sheet.specs.Line.{lf, word_to};
ghost use Rattle.sheet_reader.specs.word_field.Mark.{mark};

use crate::field::{LF, UNFOUND};
use sheet::Field;

// The LF after a value.
fn ended(bytes: &[u8], at: usize, v: u64) -> Field
    ensures { result ≡ end_at lf v at (drop at bytes.now) }
{
    if at < bytes.len() {
        if bytes[at] == LF {
            return Field {
                value: v,
                next: at + 1,
            };
        }
    }
    UNFOUND
}

// The value of each byte as a lower-case hexadecimal digit, and 255 where it is none: more than the values of 16 digits together.
static DIGITS: [u8; 256] = [
    255, 255, 255, 255, 255, 255, 255, 255, 255, 255, 255, 255, 255, 255, 255, 255, 255, 255, 255,
    255, 255, 255, 255, 255, 255, 255, 255, 255, 255, 255, 255, 255, 255, 255, 255, 255, 255, 255,
    255, 255, 255, 255, 255, 255, 255, 255, 255, 255, 0, 1, 2, 3, 4, 5, 6, 7, 8, 9, 255, 255, 255,
    255, 255, 255, 255, 255, 255, 255, 255, 255, 255, 255, 255, 255, 255, 255, 255, 255, 255, 255,
    255, 255, 255, 255, 255, 255, 255, 255, 255, 255, 255, 255, 255, 255, 255, 255, 255, 10, 11,
    12, 13, 14, 15, 255, 255, 255, 255, 255, 255, 255, 255, 255, 255, 255, 255, 255, 255, 255, 255,
    255, 255, 255, 255, 255, 255, 255, 255, 255, 255, 255, 255, 255, 255, 255, 255, 255, 255, 255,
    255, 255, 255, 255, 255, 255, 255, 255, 255, 255, 255, 255, 255, 255, 255, 255, 255, 255, 255,
    255, 255, 255, 255, 255, 255, 255, 255, 255, 255, 255, 255, 255, 255, 255, 255, 255, 255, 255,
    255, 255, 255, 255, 255, 255, 255, 255, 255, 255, 255, 255, 255, 255, 255, 255, 255, 255, 255,
    255, 255, 255, 255, 255, 255, 255, 255, 255, 255, 255, 255, 255, 255, 255, 255, 255, 255, 255,
    255, 255, 255, 255, 255, 255, 255, 255, 255, 255, 255, 255, 255, 255, 255, 255, 255, 255, 255,
    255, 255, 255, 255, 255, 255, 255, 255, 255, 255, 255, 255, 255, 255, 255, 255, 255, 255, 255,
    255, 255, 255, 255,
];

fn mark(b: u8) -> u64
    ensures { result ≡ mark b }
{
    DIGITS[b as usize] as u64
}

// A word of 16 lower-case hexadecimal digits, and LF. Which digit comes cannot be guessed, so no branch looks at one: the sum of the entries says
// behind the last whether all were digits.
pub fn word(bytes: &[u8], at: usize) -> Field
    ensures { result ≡ word_to bytes.now at }
{
    if bytes.len() < 17 {
        return UNFOUND;
    }
    if bytes.len() - 17 < at {
        return UNFOUND;
    }
    let mut v: u64 = 0;
    let mut sum: u64 = 0;
    for k in 0..16 {
        let d = mark(bytes[at + k]);
        v = std::num::wrapping_add_u64(v % 1152921504606846976 * 16, d);
        sum += d;
    }
    if 255 <= sum {
        return UNFOUND;
    }
    ended(bytes, at + 16, v)
}
