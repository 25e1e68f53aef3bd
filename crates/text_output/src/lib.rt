// Writes bytes, numbers and words as text into lent bytes, from a place on, and answers the place behind (document 01, "Worked sheets").
#![tactic(auto)]

pub mod print_lines;

ghost use Rattle.std.specs.Prelude.{◌≡◌, ◌+◌, ◌≤◌, [], ◌∷◌, length};
ghost use Rattle.storage.specs.Part.{store};
ghost use Rattle.factor_output.specs.Print.{number, hex_digit, hexadecimal, word};

use float_bits::words;

// The bytes that end a field: a tab between two, LF at the end of the line.
pub const TAB: u8 = 9;

pub const LF: u8 = 10;

// One byte, at a place that is there.
pub fn put_byte(out: &mut [u8], at: usize, b: u8) -> usize
    requires { at + 1 ≤ length out.old }
    ensures { (result ≡ at + 1) × (out.new ≡ store at (b ∷ []) out.old) }
{
    out[at] = b;
    at + 1
}

// The bytes of a text.
pub fn put_text(out: &mut [u8], at: usize, text: &[u8]) -> usize
    requires { at + length text.now ≤ length out.old }
    ensures { (result ≡ at + length text.now) × (out.new ≡ store at text.now out.old) }
{
    let end = at + text.len();
    out[at..end].copy_from_slice(text);
    end
}

// A number in decimal, where there is room for just its digits: those of its tenth, and the last. A `write!` into lent bytes promises what it
// wrote only where it answers Ok, and not that it does, so the digits are made here.
fn put_digits(out: &mut [u8], at: usize, x: u64) -> usize
    requires { at + length (number x) ≤ length out.old }
    ensures { (result ≡ at + length (number x)) × (out.new ≡ store at (number x) out.old) }
{
    if x < 10 {
        return put_byte(out, at, 48 + x as u8);
    }
    let last = put_digits(out, at, x / 10);
    put_byte(out, last, 48 + (x % 10) as u8)
}

// A number in decimal.
pub fn put_number(out: &mut [u8], at: usize, x: u64) -> usize
    requires { at + 20 ≤ length out.old }
    ensures { (result ≡ at + length (number x)) × (out.new ≡ store at (number x) out.old) }
{
    put_digits(out, at, x)
}

// A lower-case hexadecimal digit.
fn hex_digit(d: u64) -> u8
    requires { d ≤ 15 }
    ensures { result ≡ hex_digit d }
{
    if d < 10 { 48 + d as u8 } else { 87 + d as u8 }
}

// The last n hexadecimal digits of x: those of its sixteenth, and the last.
fn put_hexadecimal(out: &mut [u8], at: usize, n: usize, x: u64) -> usize
    requires { at + n ≤ length out.old }
    ensures { (result ≡ at + n) × (out.new ≡ store at (hexadecimal n x) out.old) }
{
    if n == 0 {
        return at;
    }
    let last = put_hexadecimal(out, at, n - 1, x / 16);
    put_byte(out, last, hex_digit(x % 16))
}

// The 16 digits of a double's word; of every NaN they are 7ff8000000000000.
pub fn put_word(out: &mut [u8], at: usize, x: f64) -> usize
    requires { at + 16 ≤ length out.old }
    ensures { (result ≡ at + 16) × (out.new ≡ store at (word x) out.old) }
{
    put_hexadecimal(out, at, 16, words::word_of(x))
}
