// Writes a response into the loaded numbers of a workspace (document 01, Record 3), cell by cell. What is left is defined in specs/write_rows/Strided.antt.
ghost use Rattle.std.specs.Prelude.{◌≡◌, true, ℕ, ◌+◌, ◌*◌, ◌≤◌, ◌<◌, length};
ghost use Rattle.layout.specs.Shapes.{levels, loaded_at, loaded_length};
ghost use Rattle.heading_format.specs.Heading.{valid_layout};
ghost use Rattle.workspace.specs.Loaded.{row_start};
ghost use Rattle.workspace.specs.Response.{response, Prescribed};
ghost use Rattle.replace_response.specs.write_rows.Strided.{strided, from, fixed_row, fixed_rows, last_row, response_rows};

use block_places::block_kinds;
use block_places::row_map::Map;
use layout::Layout;
use re_lower::triangle_cells;

// Writes the n doubles of l from `at` on into `doubles`, the first at `to`, each next one `step` further on.
fn spread(doubles: &mut [f64], to: usize, step: usize, n: usize, l: &[f64], at: usize)
    requires { (at + n ≤ length l.now) × ((c : ℕ) → c < n → to + c * step < length doubles.old) }
    ensures { doubles.new ≡ strided to step n (from l.now at) doubles.old }
{
    for c in 0..n {
        doubles[to + c * step] = l[at + c];
    }
}

// Where loaded block (k, j) starts: the fixed rows of factor j, or the last triangle.
fn start_of(map: &Map, j: usize) -> usize
    requires { j ≤ map.now.layout.k }
    ensures { result ≡ loaded_at map.now.layout map.now.layout.k j }
{
    map.start_of(map.layout.k, j as u64) as usize
}

// The first row of sorted block j in the sheet.
fn row_of(map: &Map, j: usize) -> usize
    requires { j < map.now.layout.k }
    ensures { result ≡ row_start map.now.layout j }
{
    map.first[j] as usize
}

// The levels of sorted block j.
fn levels_of(layout: Layout, j: usize) -> usize
    requires { j < 8 }
    ensures { result ≡ levels layout j }
{
    let m = layout.m;
    m[j] as usize
}

// Z'y of sorted block j into the response's row of its fixed rows.
fn write_block(map: &Map, j: usize, doubles: &mut [f64], zty: &[f64])
    requires { (j < map.now.layout.k) × (loaded_length map.now.layout ≤ length doubles.old) × (length zty.now ≡ map.now.layout.q) }
    ensures { doubles.new ≡ fixed_row map.now.layout zty.now j doubles.old }
{
    let p = map.layout.p as usize;
    let to = start_of(map, j) + p;
    let n = levels_of(map.layout, j);
    let first = row_of(map, j);
    let rows = block_kinds::last_rows(map.layout) as usize;
    spread(doubles, to, rows, n, zty, first);
}

// Z'y into the response's row of the fixed rows of every factor.
fn write_blocks(map: &Map, doubles: &mut [f64], zty: &[f64])
    requires { (loaded_length map.now.layout ≤ length doubles.old) × (length zty.now ≡ map.now.layout.q) }
    ensures { doubles.new ≡ fixed_rows map.now.layout zty.now map.now.layout.k doubles.old }
{
    let k = map.layout.k as usize;
    for j in 0..k {
        write_block(map, j, doubles, zty);
    }
}

// X'y and y'y into the response's row of the last triangle.
fn write_last(map: &Map, doubles: &mut [f64], xty: &[f64], yty: &[f64])
    requires { (loaded_length map.now.layout ≤ length doubles.old) × (length xty.now ≡ map.now.layout.p) × (length yty.now ≡ 1) }
    ensures { doubles.new ≡ last_row map.now.layout xty.now yty.now doubles.old }
{
    let p = map.layout.p as usize;
    let to = start_of(map, map.layout.k as usize) + triangle_cells::row_start(p);
    spread(doubles, to, 1, p, xty, 0);
    spread(doubles, to + p, 1, 1, yty, 0);
}

// The whole response, and nothing else.
pub fn write_response(layout: Layout, doubles: &mut [f64], zty: &[f64], xty: &[f64], yty: &[f64])
    requires { (valid_layout layout ≡ true) × (loaded_length layout ≤ length doubles.old) × Prescribed layout (response zty.now xty.now yty.now) }
    ensures { doubles.new ≡ response_rows layout (response zty.now xty.now yty.now) doubles.old }
{
    let map = Map::of(layout);
    write_blocks(&map, doubles, zty);
    write_last(&map, doubles, xty, yty);
}
