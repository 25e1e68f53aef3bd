// Test program: gives each input of a list to `factor` and prints what that printed, byte for byte. The file stdout has what must be printed;
// tools/factor_list.py made both.
#![tactic(auto)]

ghost use Rattle.std.specs.Prelude.{◌≡◌, ◌≤◌, length, IfOk};

use std::io;
use std::io::{Read, Write};

// The word whose highest byte is byte j of a text that has so many words in the list: the next one, or the one before rotated by a byte, so that the
// last word goes on to the end.
fn next_word(list: &mut impl Read, x: u64, j: usize, words: u64) -> io::Result<u64> {
    if j % 8 == 0 && ((j / 8) as u64) < words {
        return test_words::read_word(list);
    }
    Ok(x.rotate_left(8))
}

// The next text of the list, to the bytes of s from `from` on: where it ends, how many words it has, and the words. Answers where it ends. An error is one
// of a read of the list; s is as long as it was, and holds what was read before.
fn read_text(list: &mut impl Read, s: &mut [u8], from: usize) -> io::Result<usize>
    ensures within { IfOk result (λ end. end ≤ length s.new) }
    ensures kept { length s.new ≡ length s.old }
{
    let end = test_words::size(test_words::read_word(list)?, s.len());
    let words = test_words::read_word(list)?;
    let mut x: u64 = 0;
    for i in from..end {
        x = next_word(list, x, i - from, words)?;
        s[i] = (x >> 56) as u8;
    }
    Ok(end)
}

// What `factor` prints for an input, behind the line with its number.
fn run(out: &mut impl Write, number: u64, input: &[u8]) -> io::Result<()> {
    let mut text = [0u8; 131072];
    let n = factor_text::factor(input, &mut text);
    writeln!(out, "input {number}")?;
    out.write_all(&text[..n])
}

// An input's first word says how many bytes it has in common with the one before, which s has. A proved loop has to end, and nothing says that a file
// does, so it takes a million inputs at most.
fn replay(list: &mut impl Read, out: &mut impl Write, s: &mut [u8]) -> io::Result<()> {
    for number in 1..1000000u64 {
        let Some(common) = test_words::next_word(list)? else {
            break;
        };
        let end = read_text(list, s, test_words::size(common, 65536))?;
        run(out, number, &s[..end])?;
    }
    Ok(())
}

fn main(rt: HostRuntime) -> io::Result<()> {
    let mut list = rt.reader();
    let mut out = io::writer(&rt);
    let mut s = [0u8; 65536];
    replay(&mut list, &mut out, &mut s)
}
