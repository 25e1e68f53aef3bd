// Where the word of each line of a sheet goes among the doubles of a workspace (document 01, Record 3). Definitions are in specs/word_address/Spread.antt.
ghost use Rattle.std.specs.Prelude.{◌≡◌, cond, ◌+◌, ◌*◌, ◌≤◌, ◌<◌};
ghost use Rattle.layout.specs.Shapes.{levels, loaded_at};
ghost use Rattle.load_numbers.specs.word_address.Spread.{entry_place, fixed_place, place_of};

use block_places::block_kinds;
use block_places::row_map::Map;
use sheet::Line;
use sheet_reader::field::NOWHERE;

// The runs of lines that have words.
#[derive(Clone, Copy)]
pub enum Run {
    Zz,
    Zx,
    Zy,
    Xx,
    Xy,
    Yy,
}

// Cell (r, c) of pair (i, j), counted from its start.
fn pair_place(map: &Map, i: u64, c: u64, r: u64) -> u64
    requires { (i < map.now.layout.k) × (c ≤ 65535) × (r ≤ 65535) }
    ensures { (result ≡ cond map.now.layout.sparse c (c * levels map.now.layout i + r)) × (result ≤ 4295032832) }
{
    if map.layout.sparse {
        return c;
    }
    c * map.layout.m[i as usize] + r
}

// The place of Z'Z at a column and row.
fn entry_place(map: &Map, col: u64, row: u64) -> usize
    ensures { result ≡ entry_place map.now.layout col row }
{
    let i = map.block_of(row);
    if i >= map.layout.k {
        return NOWHERE;
    }
    let r = map.level_of(i, row);
    if col == row {
        return (map.start_of(i, i) + r) as usize;
    }
    let j = map.block_of(col);
    if j >= i {
        return NOWHERE;
    }
    let c = map.level_of(j, col);
    (map.start_of(i, j) + pair_place(map, i, c, r)) as usize
}

// The place of fixed row r at row x of the sheet.
fn fixed_place(map: &Map, x: u64, r: u64) -> usize
    requires { r ≤ map.now.layout.p }
    ensures { result ≡ fixed_place map.now.layout x r }
{
    let j = map.block_of(x);
    if j >= map.layout.k {
        return NOWHERE;
    }
    let c = map.level_of(j, x);
    let rows = block_kinds::last_rows(map.layout);
    (map.start_of(map.layout.k, j) + (c * rows + r)) as usize
}

// Place i of the last triangle.
fn last_place(map: &Map, i: u64) -> usize
    requires { i ≤ 1099511627776 }
    ensures { result ≡ loaded_at map.now.layout map.now.layout.k map.now.layout.k + i }
{
    (map.start_of(map.layout.k, map.layout.k) + i) as usize
}

// The place of the word of line i of a run.
pub fn place_of(run: Run, map: &Map, i: u64, l: Line) -> usize
    requires { i ≤ 1099511627776 }
    ensures { result ≡ place_of run map.now.layout i l }
{
    match run {
        Run::Zz => entry_place(map, l.first, l.second),
        Run::Zx => fixed_place(map, i / map.layout.p, i % map.layout.p),
        Run::Zy => fixed_place(map, i, map.layout.p),
        Run::Xx => last_place(map, i),
        Run::Xy => last_place(map, i),
        Run::Yy => last_place(map, i),
    }
}
