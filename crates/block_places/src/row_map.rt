// The map of a sheet's rows to sorted blocks and levels (document 01, Record 2).
ghost use Rattle.std.specs.Prelude.{◌≡◌, true, ◌-◌, ◌+◌, ◌*◌, ◌≤◌, ◌<◌, ℕ};
ghost use Rattle.layout.specs.Shapes.{levels, loaded_at};
ghost use Rattle.heading_format.specs.Heading.{valid_layout};
ghost use Rattle.workspace.specs.Loaded.{row_start, in_block};
ghost use Rattle.block_places.specs.sheet_rows.Blocks.{block_of_row, FirstRows, BlockStarts};

use crate::{places, sheet_rows};
use layout::Layout;

// A valid layout with the first row of each sorted block in the sheet, and where each loaded block (i, j) starts, at 9 i + j. It is lent to what is done for each
// line of a sheet: a copy of its lists for each line took a fifth of the time of a load.
#[derive(Clone, Copy)]
pub struct Map {
    pub layout: Layout,
    pub first: [u64; 8],
    pub at: [u64; 81],
    pub ghost valid: { valid_layout layout ≡ true },
    pub ghost rows: { FirstRows layout first },
    pub ghost starts: { BlockStarts layout at },
}

impl Map {
    // The map of a layout.
    pub fn of(layout: Layout) -> Map
        requires { valid_layout layout ≡ true }
        ensures { result.layout ≡ layout }
    {
        Map {
            layout,
            first: first_rows(layout),
            at: block_starts(layout),
        }
    }

    // The sorted block that has row x of the sheet, or k where none has.
    pub fn block_of(&self, x: u64) -> u64
        ensures { result ≡ block_of_row self.now.layout self.now.layout.k x }
    {
        let mut block = self.layout.k;
        for j in 0..self.layout.k as usize {
            if sheet_rows::within(self.first[j], self.layout.m[j], x) {
                block = j as u64;
            }
        }
        block
    }

    // The level of block j that row x of the sheet is.
    pub fn level_of(&self, j: u64, x: u64) -> u64
        requires { (j < self.now.layout.k) × (in_block self.now.layout j x ≡ true) }
        ensures { (result ≡ x - row_start self.now.layout j) × (result < levels self.now.layout j) }
    {
        x - self.first[j as usize]
    }

    // Where loaded block (i, j) starts.
    pub fn start_of(&self, i: u64, j: u64) -> u64
        requires { (j ≤ i) × (i ≤ self.now.layout.k) }
        ensures { (result ≡ loaded_at self.now.layout i j) × (result < 2199023255552) }
    {
        self.at[(i * 9 + j) as usize]
    }
}

// The rows' starts of the sorted blocks, one after the other.
fn first_rows(layout: Layout) -> [u64; 8]
    requires { valid_layout layout ≡ true }
    ensures { FirstRows layout result }
{
    let mut first = [0u64; 8];
    for j in 0..layout.k as usize {
        first[j] = sheet_rows::first_row(layout, j);
    }
    first
}

// Where loaded block (i, j) starts, for t = 9 i + j; 0 where there is no such block.
fn start_at(layout: Layout, t: usize) -> u64
    requires { valid_layout layout ≡ true }
    ensures { (i j : ℕ) → t ≡ i * 9 + j → j ≤ i → i ≤ layout.k → result ≡ loaded_at layout i j }
{
    let i = (t / 9) as u64;
    let j = (t % 9) as u64;
    if i < j {
        return 0;
    }
    if layout.k < i {
        return 0;
    }
    places::loaded_at(layout, i, j) as u64
}

// The starts of all loaded blocks.
fn block_starts(layout: Layout) -> [u64; 81]
    requires { valid_layout layout ≡ true }
    ensures { BlockStarts layout result }
{
    let mut at = [0u64; 81];
    for t in 0..81 {
        at[t] = start_at(layout, t);
    }
    at
}
