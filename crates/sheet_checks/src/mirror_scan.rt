// One pass over the entries of a sheet for number 9, for a group of columns.
ghost use Rattle.std.specs.Prelude.{◌≡◌, ◌+◌, ◌<◌, length, replicate};
ghost use Rattle.sheet_checks.specs.mirror_cursor.Held.{Given, Levelled};
ghost use Rattle.sheet_checks.specs.mirror_cursor.Turns.{Pass};
ghost use Rattle.sheet_checks.specs.mirror_scan.Mirror.{Judged};

use crate::mirror_cursor::Known;
use crate::{mirror_cursor, mirror_step};
use sheet::Starts;
use sheet_reader::pair_line;

// At the end of a pass a line at a cursor that is still below the diagonal in its column is faulty, since its mirror never came: where the first
// faulty line of the group starts.
fn first_fault(bytes: &[u8], starts: Starts, n: u64, base: u64, cur: &[usize], k: Known) -> usize
    requires { Given bytes.now starts n × Pass bytes.now starts base cur.now n k × (base + length cur.now < 1152921504606846976) }
    ensures { Judged bytes.now starts base (length cur.now) result }
{
    let mut first = k.first;
    for col in base..k.due {
        let j = (col - base) as usize;
        let at = cur[j];
        let o = pair_line::pair_line(b"zz\t", bytes, at);
        if (o.first == col) & (col < o.second) {
            first = mirror_cursor::earlier(first, at);
        }
    }
    first
}

// One pass over the lines, for the columns of `cur` from `base` on: where the first faulty line of the group starts. Every cursor starts at the first zz line.
pub fn pass(
    bytes: &[u8],
    starts: Starts,
    m: [u64; 8],
    n: u64,
    base: u64,
    cur: &mut [usize],
) -> usize
    requires { Given bytes.now starts n × Levelled bytes.now m × (0 < n) × (base + length cur.old < 1152921504606846976) × (cur.old ≡ replicate (length cur.old) starts.zz) }
    ensures { Judged bytes.now starts base (length cur.old) result }
{
    let mut k = Known {
        at: starts.zz,
        due: 0,
        first: starts.zx,
    };
    for i in 0..n {
        k = mirror_step::check_entry(bytes, starts, m, base, cur, i, k);
    }
    first_fault(bytes, starts, n, base, cur, k)
}
