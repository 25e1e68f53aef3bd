// Whether each level of one block has exactly one entry with the levels of another (document 01, Record 2, the gate for k = 2), read from the zz
// lines.
ghost use Rattle.std.specs.Prelude.{◌≡◌, ◌+◌, ◌<◌, ◌^◌};
ghost use Rattle.sheet.specs.Line.{zz_tag, pair_line};
ghost use Rattle.sheet.specs.Sheet.{Sheet, accepted, read_sheet};
ghost use Rattle.sheet_checks.specs.levels.Held.{Holds};
ghost use Rattle.layout_gate.specs.column_entries.Columns.{in_run, each_one, in_turn, entries_at};

use sheet::{Line, Starts};
use sheet_checks::levels;
use sheet_reader::pair_line;

// Whether x is one of the n numbers from a on.
fn in_run(a: u64, n: u64, x: u64) -> bool
    requires { a + n < 2 ^ 64 }
    ensures { result ≡ in_run a n x }
{
    (a..a + n).contains(&x)
}

// The zz line at a position.
fn entry_line(bytes: &[u8], at: usize) -> Line
    ensures { result ≡ pair_line zz_tag bytes.now at }
{
    pair_line::pair_line(b"zz\t", bytes, at)
}

// One pass over n zz lines that start at a position.
fn in_turn(bytes: &[u8], start: usize, n: u64, from: u64, cols: u64, at: u64, rows: u64) -> bool
    requires { (from + cols < 2 ^ 64) × (at + rows < 2 ^ 64) }
    ensures { result ≡ in_turn from cols at rows from (entries_at bytes.now n start) }
{
    let mut p = start;
    let mut due = from;
    for _turn in 0..n {
        let l = entry_line(bytes, p);
        let here = in_run(from, cols, l.first) & in_run(at, rows, l.second);
        if here & (l.first != due) {
            return false;
        }
        due += u64::from(here);
        p = l.next;
    }
    due == from + cols
}

// Whether each of the columns from `from` on, `cols` of them, has exactly one entry in the rows from `at` on, `rows` of them.
pub fn one_each(bytes: &[u8], starts: Starts, from: u64, cols: u64, at: u64, rows: u64) -> bool
    requires { Holds bytes.now starts × (from + cols < 2 ^ 64) × (at + rows < 2 ^ 64) }
    ensures { (sheet : Sheet) → read_sheet bytes.now ≡ accepted sheet starts → result ≡ each_one from cols at rows sheet.zz }
{
    in_turn(
        bytes,
        starts.zz,
        levels::entries(starts),
        from,
        cols,
        at,
        rows,
    )
}
