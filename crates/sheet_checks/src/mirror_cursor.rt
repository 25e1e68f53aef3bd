// What a turn of the search for number 9 of a sheet (document 01, "Refused because of the input") keeps and tests: a zz word that is zero, an entry off
// the diagonal inside a block, or an entry without a mirror of equal bits. One cursor for each column of a group stands at the column's first entry
// below the diagonal whose mirror may still come. Nothing else is stored: the line of each entry is read where it stands, and below the diagonal
// again, when an entry above the diagonal looks at the cursor.
ghost use Rattle.std.specs.Prelude.{◌≡◌, List, ℕ, ◌+◌, ◌<◌, ◌≤◌, min, length};
ghost use Rattle.sheet.specs.Run.{Block, entry_in};
ghost use Rattle.sheet.specs.Sheet.{Sheet};
ghost use Rattle.sheet.specs.Fault.{covered_rows, block_of_row};
ghost use Rattle.layout.specs.Blocks.{padded};
ghost use Rattle.sheet_checks.specs.levels.Held.{level_list};
ghost use Rattle.sheet_checks.specs.mirror_cursor.Turns.{Grouped, is_unfit, is_opposite, is_passed};

use sheet::Line;
use sheet_reader::word_class;

// What a pass knows before a line: where it starts, the first column that has had no entry below the diagonal, and where the first line starts that is
// known to be faulty, the end of the zz lines while none is.
#[derive(Clone, Copy)]
pub struct Known {
    pub at: usize,
    pub due: u64,
    pub first: usize,
}

// Where a column's cursor stands, and where the first line starts that is known to be faulty.
#[derive(Clone, Copy)]
pub struct Moved {
    pub cursor: usize,
    pub first: usize,
}

// The block that holds row i.
fn block_of(m: [u64; 8], i: u64) -> u64
    ensures { (blocks : List Block) → m ≡ padded 8 (level_list blocks) → length blocks ≤ 8 → i < covered_rows blocks → result ≡ block_of_row blocks i }
{
    let mut left = i;
    for j in 0..8usize {
        if left < m[j] {
            return j as u64;
        }
        left -= m[j];
    }
    8
}

// Whether a line has a fault that needs no other: a zero word, or off the diagonal inside a block.
pub fn is_unfit(m: [u64; 8], l: Line) -> bool
    ensures { (sheet : Sheet) (line : ℕ) → m ≡ padded 8 (level_list sheet.blocks) → length sheet.blocks ≤ 8
        → l.first < covered_rows sheet.blocks → l.second < covered_rows sheet.blocks → result ≡ is_unfit sheet (entry_in line l) }
{
    let a = block_of(m, l.first);
    let b = block_of(m, l.second);
    word_class::is_zero(l.word) | ((a == b) & (l.first != l.second))
}

// Whether the smaller index of an entry is in the group.
pub fn in_group(base: u64, width: u64, l: Line) -> bool
    requires { base + width < 1152921504606846976 }
    ensures { Grouped base width l result }
{
    (base <= l.first)
        & ((base <= l.second) & ((l.first < base + width) | (l.second < base + width)))
}

// Whether o is at the place of l's mirror.
pub fn is_opposite(l: Line, o: Line) -> bool
    ensures { result ≡ is_opposite l o }
{
    (o.first == l.second) & (o.second == l.first)
}

// Whether o is below the diagonal in the column of l's row, at a row that l's column is past: its mirror did not come.
pub fn is_passed(l: Line, o: Line) -> bool
    ensures { result ≡ is_passed l o }
{
    (o.first == l.second) & ((l.second < o.second) & (o.second < l.first))
}

// The smaller of two places.
pub fn earlier(a: usize, b: usize) -> usize
    ensures { result ≡ min a b }
{
    a.min(b)
}
