// Reads the list of words that a test program is given on standard input: lines of sixteen lower-case hexadecimal digits and a line feed, a word
// each. The program hands its reader and its writer along, and a read or a write that fails ends it with that error.
// What the program prints of the words is held to its file stdout, which a script made. Nothing is tested here: a list out of form shows in what is
// printed.
#![tactic(auto)]

ghost use Rattle.std.specs.Prelude.{◌≤◌};

use std::io;
use std::io::{ErrorKind, Read, Write};

// The word that a line's digits spell. The letters have 6 in their upper half and lie ten less one behind the digits.
fn spelt(line: &[u8; 17]) -> u64 {
    line[..16].iter().fold(0, |w, b| {
        let b = u64::from(*b);
        w % 0x1000000000000000 * 16 + (b % 16 + b / 64 * 9) % 16
    })
}

// Whether the list has a line more. Where it ends before or within that, the bytes that are missing stay as they were.
fn read_line(list: &mut impl Read, line: &mut [u8; 17]) -> io::Result<bool> {
    match list.read_exact(line) {
        Ok(()) => Ok(true),
        Err(e) if e.kind() == ErrorKind::UnexpectedEof => Ok(false),
        Err(e) => Err(e),
    }
}

// The next line's word, if there is one.
pub fn next_word(list: &mut impl Read) -> io::Result<Option<u64>> {
    let mut line = [0u8; 17];
    Ok(read_line(list, &mut line)?.then(|| spelt(&line)))
}

// The word of a line that has to be there. Where the list ends before or within it, what is missing counts as bytes 0.
pub fn read_word(list: &mut impl Read) -> io::Result<u64> {
    let mut line = [0u8; 17];
    read_line(list, &mut line)?;
    Ok(spelt(&line))
}

// Fills m by lines.
pub fn read_words(list: &mut impl Read, m: &mut [u64]) -> io::Result<()> {
    for word in m.iter_mut() {
        *word = read_word(list)?;
    }
    Ok(())
}

// A word as a size, and `most` where it is larger.
pub fn size(x: u64, most: usize) -> usize
    ensures { result ≤ most }
{
    x.min(most as u64) as usize
}

// A blank and a number.
pub fn print_number(out: &mut impl Write, x: u64) -> io::Result<()> {
    write!(out, " {x}")
}

// A blank, a word's digits and a line feed.
pub fn print_word(out: &mut impl Write, x: u64) -> io::Result<()> {
    writeln!(out, " {x:016x}")
}
