// One turn of the search for number 9 of a sheet, on the line of an entry: what it and its column's cursor say of each other, and where the cursor then
// stands.
ghost use Rattle.std.specs.Prelude.{◌≡◌, false, cond, ℕ, ◌+◌, ◌≤◌, ◌<◌, min, length};
ghost use Rattle.sheet.specs.Line.{zz_tag, pair_line};
ghost use Rattle.sheet.specs.Run.{entry_in};
ghost use Rattle.sheet.specs.Sheet.{Sheet};
ghost use Rattle.sheet.specs.Fault.{covered_rows};
ghost use Rattle.layout.specs.Blocks.{padded};
ghost use Rattle.sheet_checks.specs.levels.Held.{level_list};
ghost use Rattle.sheet_checks.specs.mirror_cursor.Held.{place_of, Given, Levelled};
ghost use Rattle.sheet_checks.specs.mirror_cursor.Turns.{is_unfit, is_passed, AtCursor, Pass};

use crate::mirror_cursor;
use crate::mirror_cursor::{Known, Moved};
use sheet::{Line, Starts};
use sheet_reader::pair_line;

// The cursor of the column of l's row, for an entry l above the diagonal: past every line whose mirror would have come before l. These are faulty.
// And the line at the cursor.
fn skip_passed(bytes: &[u8], starts: Starts, due: u64, i: u64, l: Line, c: Moved) -> (Moved, Line)
    requires { ((n : ℕ) × Given bytes.now starts n × (i < n)) × (l ≡ pair_line zz_tag bytes.now (place_of bytes.now starts i)) × (l.second < l.first) × AtCursor bytes.now starts i due l.second c }
    ensures { AtCursor bytes.now starts i due l.second result.0 × (result.1 ≡ pair_line zz_tag bytes.now result.0.cursor) × (is_passed l result.1 ≡ false) × (result.0.first ≤ c.first) }
{
    let mut at = c.cursor;
    let mut first = c.first;
    let mut o = pair_line::pair_line(b"zz\t", bytes, at);
    while mirror_cursor::is_passed(l, o) {
        first = mirror_cursor::earlier(first, at);
        at = o.next;
        o = pair_line::pair_line(b"zz\t", bytes, at);
    }
    (Moved { cursor: at, first }, o)
}

// Entry i, in the line l above the diagonal, at the cursor of its row's column: its mirror is there, with equal bits or not, or it has none.
fn meet(bytes: &[u8], starts: Starts, at: usize, due: u64, i: u64, l: Line, c: Moved) -> Moved
    requires { ((n : ℕ) × Given bytes.now starts n × (i < n)) × (at ≡ place_of bytes.now starts i) × (l ≡ pair_line zz_tag bytes.now at) × (l.second < l.first) × AtCursor bytes.now starts i due l.second c }
    ensures { AtCursor bytes.now starts (i + 1) due l.second result × (result.first ≤ c.first) }
{
    let (p, o) = skip_passed(bytes, starts, due, i, l, c);
    if mirror_cursor::is_opposite(l, o) {
        if o.word == l.word {
            return Moved {
                cursor: o.next,
                first: p.first,
            };
        }
        return Moved {
            cursor: o.next,
            first: mirror_cursor::earlier(p.first, p.cursor),
        };
    }
    Moved {
        cursor: p.cursor,
        first: mirror_cursor::earlier(p.first, at),
    }
}

// The first faulty line that is known, once line l at `at` has been looked at for a fault that needs no other.
fn with_unfit(m: [u64; 8], l: Line, at: usize, first: usize) -> usize
    ensures { (sheet : Sheet) (line : ℕ) → m ≡ padded 8 (level_list sheet.blocks) → length sheet.blocks ≤ 8
        → l.first < covered_rows sheet.blocks → l.second < covered_rows sheet.blocks → result ≡ cond (is_unfit sheet (entry_in line l)) (min first at) first }
{
    if mirror_cursor::is_unfit(m, l) {
        return mirror_cursor::earlier(first, at);
    }
    first
}

// The line of entry i. Below the diagonal it starts its column, if it is the first there; above, it is held to the entry at its cursor.
pub fn check_entry(
    bytes: &[u8],
    starts: Starts,
    m: [u64; 8],
    base: u64,
    cur: &mut [usize],
    i: u64,
    k: Known,
) -> Known
    requires { ((n : ℕ) × Given bytes.now starts n × (i < n)) × Levelled bytes.now m × Pass bytes.now starts base cur.old i k × (base + length cur.old < 1152921504606846976) }
    ensures { (length cur.new ≡ length cur.old) × Pass bytes.now starts base cur.new (i + 1) result }
{
    let l = pair_line::pair_line(b"zz\t", bytes, k.at);
    if mirror_cursor::in_group(base, cur.len() as u64, l) {
        let first = with_unfit(m, l, k.at, k.first);
        if l.second < l.first {
            let j = (l.second - base) as usize;
            let c = Moved {
                cursor: cur[j],
                first: first,
            };
            let r = meet(bytes, starts, k.at, k.due, i, l, c);
            cur[j] = r.cursor;
            return Known {
                at: l.next,
                due: k.due,
                first: r.first,
            };
        }
        if (l.first < l.second) & (k.due <= l.first) {
            let j = (l.first - base) as usize;
            cur[j] = k.at;
            return Known {
                at: l.next,
                due: l.first + 1,
                first: first,
            };
        }
        return Known {
            at: l.next,
            due: k.due,
            first: first,
        };
    }
    Known {
        at: l.next,
        due: k.due,
        first: k.first,
    }
}
