// The blocks of a sheet, read again from their lines (document 01, Records 1 and 2): their levels, and whether one has a slope. And how many zz
// lines it has, which no line says.
ghost use Rattle.std.specs.Prelude.{◌≡◌, not, List, ℕ, ◌+◌, ◌*◌, ◌/◌, ◌<◌, ◌≤◌, eqb, length, get_or};
ghost use Rattle.sheet.specs.Run.{Block};
ghost use Rattle.sheet.specs.Sheet.{Sheet, accepted, read_sheet};
ghost use Rattle.sheet.specs.Whole.{InRange};
ghost use Rattle.sheet.specs.Fault.{any_of, has_slope};
ghost use Rattle.layout.specs.Blocks.{padded, sum};
ghost use Rattle.sheet_checks.specs.levels.Held.{Holds, level_list, blocks_at};

use sheet::{Counts, Starts};
use sheet_reader::block_line;

// The levels of k blocks whose lines start at a position, 0 past the last.
fn levels_at(bytes: &[u8], from: usize, k: u64) -> [u64; 8]
    requires { k ≤ 8 }
    ensures { result ≡ padded 8 (level_list (blocks_at bytes.now k from)) }
{
    let mut m: [u64; 8] = [0; 8];
    let mut at = from;
    for i in 0..k as usize {
        let l = block_line::block_line(bytes, at);
        m[i] = l.first;
        at = l.next;
    }
    m
}

// The levels of each block of the sheet, in its order.
pub fn levels(bytes: &[u8], starts: Starts) -> [u64; 8]
    requires { Holds bytes.now starts }
    ensures { (sheet : Sheet) → read_sheet bytes.now ≡ accepted sheet starts → result ≡ padded 8 (level_list sheet.blocks) }
{
    levels_at(bytes, starts.block, starts.counts.k)
}

// Whether one of k blocks whose lines start at a position has an e that is not 1.
fn slope_at(bytes: &[u8], from: usize, k: u64) -> bool
    ensures { result ≡ any_of (λ (b : Block). not (eqb b.e 1)) (blocks_at bytes.now k from) }
{
    let mut at = from;
    for i in 0..k {
        let l = block_line::block_line(bytes, at);
        if l.second != 1 {
            return true;
        }
        at = l.next;
    }
    false
}

// Whether an e of the sheet is not 1, number 7.
pub fn has_slope(bytes: &[u8], starts: Starts) -> bool
    requires { Holds bytes.now starts }
    ensures { (sheet : Sheet) → read_sheet bytes.now ≡ accepted sheet starts → result ≡ has_slope sheet }
{
    slope_at(bytes, starts.block, starts.counts.k)
}

// The sum of the first n levels: the row where block n of the sheet starts.
pub fn start(m: [u64; 8], n: u64) -> u64
    requires { (n ≤ 8) × ((i : ℕ) → i < 8 → get_or m i 0 ≤ 65535) }
    ensures { result ≡ sum (λ i. get_or m i 0) n }
{
    let mut t: u64 = 0;
    for i in 0..n {
        t += m[i as usize];
    }
    t
}

// The sum of eight levels: the rows that the blocks cover.
pub fn total(m: [u64; 8]) -> u64
    requires { (i : ℕ) → i < 8 → get_or m i 0 ≤ 65535 }
    ensures { result ≡ sum (λ i. get_or m i 0) 8 }
{
    start(m, 8)
}

// How many lines of a sheet are not zz lines, and one more: the number of the line past the last, in a sheet without zz lines.
fn other_lines(c: Counts) -> u64
    requires { InRange c }
    ensures { result ≡ 3 + c.k + c.q * c.p + c.q + c.p * (c.p + 1) / 2 + c.p }
{
    3 + c.k + c.q * c.p + c.q + c.p * (c.p + 1) / 2 + c.p
}

// How many zz lines a sheet has: all its lines but the others.
pub fn entries(starts: Starts) -> u64
    requires { (s : List ℕ) × Holds s starts }
    ensures { ((s : List ℕ) (sheet : Sheet) → read_sheet s ≡ accepted sheet starts → result ≡ length sheet.zz) × (starts.line < 18446744073709551616) }
{
    let c = starts.counts;
    starts.line - other_lines(c)
}
