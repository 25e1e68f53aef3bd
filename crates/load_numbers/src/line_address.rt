// The line of a sheet that a word stands in, by the tag of its run (document 01, Record 1).
ghost use Rattle.std.specs.Prelude.{◌≡◌};
ghost use Rattle.load_numbers.specs.word_address.Spread.{line_of};

use crate::word_address::Run;
use sheet::Line;
use sheet_reader::{pair_line, single_line, yy_line};

// The line of a run at a position.
pub fn line_at(run: Run, bytes: &[u8], at: usize) -> Line
    ensures { result ≡ line_of run bytes.now at }
{
    match run {
        Run::Zz => pair_line::pair_line(b"zz\t", bytes, at),
        Run::Zx => pair_line::pair_line(b"zx\t", bytes, at),
        Run::Zy => single_line::single_line(b"zy\t", bytes, at),
        Run::Xx => pair_line::pair_line(b"xx\t", bytes, at),
        Run::Xy => single_line::single_line(b"xy\t", bytes, at),
        Run::Yy => yy_line::bare_line(b"yy\t", bytes, at),
    }
}
