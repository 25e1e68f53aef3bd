// Sheets that are too long for a list, made by a rule. load looks for faulty zz lines in groups of 65,536 columns, so these have more rows than
// that: a block of 65,535 levels and one of 5. The list has their zz entries, and every other word is 1.0.
use std::io;
use std::io::{Read, Write};
use test_words::{read_word, size};

// Room for the bytes of a sheet, which has some 3,520,000.
pub const ROOM: usize = 4194304;

const ROWS: u64 = 65540;

// The word of 1.0.
const ONE: u64 = 0x3ff0000000000000;

// A tab and an index, and of a larger one its last five digits.
fn put_index(s: &mut impl Write, x: u64) -> io::Result<()> {
    if x < 100000 {
        return write!(s, "\t{x}");
    }
    let end = x % 100000;
    write!(s, "\t{end:05}")
}

// A tab, the sixteen digits of a word and the end of its line.
fn put_word(s: &mut impl Write, word: u64) -> io::Result<()> {
    writeln!(s, "\t{word:016x}")
}

// A line: its tag, its indices and its word.
fn put_line(s: &mut impl Write, tag: &str, indices: &[u64], word: u64) -> io::Result<()> {
    write!(s, "{tag}")?;
    for x in indices {
        put_index(s, *x)?;
    }
    put_word(s, word)
}

// The zz lines. The list has how many, then column, row and word of each.
fn put_zz(list: &mut impl Read, s: &mut impl Write) -> io::Result<()> {
    let n = size(read_word(list)?, 1000);
    for _ in 0..n {
        let column = read_word(list)?;
        let row = read_word(list)?;
        put_line(s, "zz", &[column, row], read_word(list)?)?;
    }
    Ok(())
}

// The sheet whose zz entries the list has next.
pub fn put_sheet(list: &mut impl Read, s: &mut impl Write) -> io::Result<()> {
    write!(s, "size\t9\t1\t65540\t2\t1\nblock\t65535\t1\nblock\t5\t1\n")?;
    put_zz(list, s)?;
    for row in 0..ROWS {
        put_line(s, "zx", &[row, 0], ONE)?;
    }
    for row in 0..ROWS {
        put_line(s, "zy", &[row], ONE)?;
    }
    put_line(s, "xx", &[0, 0], ONE)?;
    put_line(s, "xy", &[0], ONE)?;
    put_line(s, "yy", &[], ONE)
}
