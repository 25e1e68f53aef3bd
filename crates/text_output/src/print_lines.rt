// Writes the lines of the program `factor` (document 01, worked sheets) into bytes.
ghost use Rattle.std.specs.Prelude.{◌≡◌, ◌+◌, ◌≤◌, length};
ghost use Rattle.storage.specs.Part.{store};
ghost use Rattle.factor_output.specs.Print.{number, pivot_line, refused_line};
ghost use Rattle.text_output.specs.Written.{Put};

use crate::{LF, TAB};

// The line of a pivot: its block, its row and its word.
pub fn put_pivot(out: &mut [u8], at: usize, block: u64, row: u64, x: f64) -> usize
    requires { at + 65 ≤ length out.old }
    ensures { (result ≡ at + length (pivot_line block row x)) × (out.new ≡ store at (pivot_line block row x) out.old) }
{
    let p = crate::put_text(out, at, b"pivot\t");
    let p = crate::put_number(out, p, block);
    let p = crate::put_byte(out, p, TAB);
    let p = crate::put_number(out, p, row);
    let p = crate::put_byte(out, p, TAB);
    let p = crate::put_word(out, p, x);
    crate::put_byte(out, p, LF)
}

// The line of a refusal: its number and its two places. It has at most 71 bytes.
pub fn put_refused(out: &mut [u8], at: usize, number: u64, first: u64, second: u64) -> usize
    requires { at + 71 ≤ length out.old }
    ensures { (result ≤ at + 71) × Put at (refused_line number first second) out.old result out.new }
{
    let p = crate::put_text(out, at, b"refused\t");
    let p = crate::put_number(out, p, number);
    let p = crate::put_byte(out, p, TAB);
    let p = crate::put_number(out, p, first);
    let p = crate::put_byte(out, p, TAB);
    let p = crate::put_number(out, p, second);
    crate::put_byte(out, p, LF)
}
