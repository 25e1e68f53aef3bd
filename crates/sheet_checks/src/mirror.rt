// Number 9 of a sheet (document 01, "Refused because of the input"; document 02, item 1): the first faulty zz line. The lines are read again where they
// stand, in one pass for each group of columns.
ghost use Rattle.std.specs.Prelude.{◌≡◌, true, ℕ, ◌≤◌, ◌<◌, Some, None};
ghost use Rattle.sheet.specs.Sheet.{Sheet, accepted, read_sheet};
ghost use Rattle.sheet.specs.Fault.{covers_rows, faulty_line};
ghost use Rattle.layout.specs.Blocks.{padded};
ghost use Rattle.sheet_checks.specs.levels.Held.{level_list};
ghost use Rattle.sheet_checks.specs.mirror_cursor.Held.{held, entry_of, place_of, Given, Levelled};
ghost use Rattle.sheet_checks.specs.mirror_scan.Mirror.{Judged, line_of};

use crate::{levels, mirror_cursor, mirror_scan};
use sheet::Starts;
use sheet_reader::pair_line;

// A pass for the W columns from `base` on.
fn group<const W: usize>(bytes: &[u8], starts: Starts, m: [u64; 8], n: u64, base: u64) -> usize
    requires { Given bytes.now starts n × Levelled bytes.now m × (0 < n) × (base < 4294967296) × (W ≤ 65536) }
    ensures { Judged bytes.now starts base W result }
{
    let first = starts.zz;
    let mut cur = [first; W];
    mirror_scan::pass(bytes, starts, m, n, base, &mut cur)
}

// Every group of columns in turn: the least place of all.
fn groups(bytes: &[u8], starts: Starts, m: [u64; 8], n: u64) -> usize
    requires { Given bytes.now starts n × Levelled bytes.now m × (0 < n) }
    ensures { (width : ℕ) × (starts.counts.q ≤ width) × Judged bytes.now starts 0 width result }
{
    let mut first = starts.zx;
    for i in 0..starts.counts.q.div_ceil(65536) {
        let r = group::<65536>(bytes, starts, m, n, 65536 * i);
        first = mirror_cursor::earlier(first, r);
    }
    first
}

// The number of the zz line that starts at `at`, none where that is the end of these lines.
fn line_number_at(bytes: &[u8], starts: Starts, n: u64, at: usize) -> Option<u64>
    requires { Given bytes.now starts n }
    ensures { ((t : ℕ) → t < n → at ≡ place_of bytes.now starts t → result ≡ Some (entry_of (held bytes.now) t).line) × (at ≡ starts.zx → result ≡ None) }
{
    if at == starts.zx {
        return None;
    }
    let first = starts.counts.k + 2;
    let mut place = starts.zz;
    for i in 0..n {
        if place == at {
            return Some(first + i);
        }
        let l = pair_line::pair_line(b"zz\t", bytes, place);
        place = l.next;
    }
    None
}

// The number of the first line with a fault of number 9, none where no line has one. m: the blocks' levels in sheet order, 0 past the last.
pub fn faulty_line(bytes: &[u8], starts: Starts, m: [u64; 8]) -> Option<u64>
    requires { (sheet : Sheet) × (read_sheet bytes.now ≡ accepted sheet starts) × (covers_rows sheet ≡ true) × (m ≡ padded 8 (level_list sheet.blocks)) }
    ensures { (sheet : Sheet) → read_sheet bytes.now ≡ accepted sheet starts → result ≡ line_of (faulty_line sheet) }
{
    let n = levels::entries(starts);
    if n == 0 {
        return None;
    }
    // A small sheet sets up 8 KiB of cursors, not 512.
    if starts.counts.q <= 1024 {
        let at = group::<1024>(bytes, starts, m, n, 0);
        return line_number_at(bytes, starts, n, at);
    }
    let at = groups(bytes, starts, m, n);
    line_number_at(bytes, starts, n, at)
}
