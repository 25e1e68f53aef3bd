// Reads a number of a sheet (document 01, Record 1) at any position of any bytes. What it answers is defined in
// the crate sheet, specs/Field.antt.
ghost use Rattle.std.specs.Prelude.{◌≡◌, ◌+◌, ◌*◌, ◌<◌, ◌≤◌, min, drop};
ghost use Rattle.sheet.specs.Field.{digit_of, digits_from, cap};
ghost use Rattle.sheet.specs.Line.{number_to};

use sheet::Field;

// The bytes that end a field: a tab between two, LF at the end of the line.
pub const TAB: u8 = 9;

pub const LF: u8 = 10;

// The position past a field or a line that is not in form: nothing stands there.
pub const NOWHERE: usize = 18446744073709551615;

// The answer where no field in form stands.
pub const UNFOUND: Field = Field {
    value: 0,
    next: NOWHERE,
};

// The value of a lower-case hexadecimal digit, and 16 for any other byte.
#[tactic(auto, unfolding(sheet::specs::Field::digit_of))]
fn digit(b: u8) -> u64
    ensures { result ≡ digit_of b }
{
    match b {
        b'0'..=b'9' => u64::from(b - b'0'),
        b'a'..=b'f' => u64::from(b - b'a') + 10,
        _ => 16,
    }
}

// One digit more, held at the cap so that no length wraps.
fn grow(v: u64, d: u64) -> u64
    requires { (v ≤ cap) × (d < 10) }
    ensures { result ≡ min (v * 10 + d) cap }
{
    (v * 10 + d).min(10000000000)
}

// The rest of a number whose first digit was read.
fn digits(bytes: &[u8], from: usize, end: u8, first: u64) -> Field
    requires { first < 10 }
    ensures { result ≡ digits_from end first from (drop from bytes.now) }
{
    let mut v = first;
    for i in from..bytes.len() {
        let b = bytes[i];
        let d = digit(b);
        if d < 10 {
            if v == 0 {
                return UNFOUND;
            }
            v = grow(v, d);
        } else {
            if b == end {
                return Field {
                    value: v,
                    next: i + 1,
                };
            }
            return UNFOUND;
        }
    }
    UNFOUND
}

// A number with no leading zero, and the byte `end`.
pub fn number(bytes: &[u8], at: usize, end: u8) -> Field
    ensures { result ≡ number_to end bytes.now at }
{
    if bytes.len() <= at {
        return UNFOUND;
    }
    let d = digit(bytes[at]);
    if d < 10 {
        return digits(bytes, at + 1, end, d);
    }
    UNFOUND
}
