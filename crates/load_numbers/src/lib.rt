// Puts the words of an accepted sheet into their places in heading and doubles (document 01, Record 3). At the root the rows of a sparse pair, which
// go into the heading; the doubles are in sheet_words.
#![tactic(auto)]

mod clear_doubles;
mod line_address;
pub mod sheet_words;
mod store_words;
pub mod word_address;

ghost use Rattle.std.specs.Prelude.{◌≡◌, [], ◌+◌, ◌≤◌, ◌<◌, length};
ghost use Rattle.storage.specs.Runs.{tab};
ghost use Rattle.storage.specs.Part.{store};
ghost use Rattle.sheet.specs.Line.{zz_tag, pair_line};
ghost use Rattle.sheet.specs.Sheet.{Sheet, accepted, read_sheet};
ghost use Rattle.layout.specs.Shapes.{pick, levels};
ghost use Rattle.heading_format.specs.Heading.{numbers_needed};
ghost use Rattle.workspace.specs.Loaded.{entry_row_in};
ghost use Rattle.load_numbers.specs.word_address.Spread.{spread};
ghost use Rattle.load_numbers.specs.sheet_words.Ready.{Ready};
ghost use Rattle.load_numbers.specs.Rows.{put_row};
ghost use Rattle.heading_format.specs.Parts.{heading_length};

use block_places::row_map::Map;
use heading_format::parts;
use layout::Layout;
use sheet::{Line, Starts};
use sheet_checks::levels;
use sheet_reader::pair_line;

// The row of one entry, where it is one of the pair.
fn put_row(map: &Map, l: Line, heading: &mut [u32])
    requires { (1 < map.now.layout.k) × (heading_length + levels map.now.layout 0 ≤ length heading.old) }
    ensures { heading.new ≡ put_row map.now.layout 0 l heading.old }
{
    if map.block_of(l.first) != 0 {
        return;
    }
    if map.block_of(l.second) != 1 {
        return;
    }
    let t = (parts::HEADING_LENGTH as u64 + map.level_of(0, l.first)) as usize;
    heading[t] = map.level_of(1, l.second) as u32;
}

// The zz line at a position.
fn entry_at(bytes: &[u8], at: usize) -> Line
    ensures { result ≡ pair_line zz_tag bytes.now at }
{
    pair_line::pair_line(b"zz\t", bytes, at)
}

// The rows of the entries of `count` zz lines from `at` on.
fn put_rows(bytes: &[u8], at: usize, count: u64, map: &Map, heading: &mut [u32])
    requires { (1 < map.now.layout.k) × (heading_length + levels map.now.layout 0 ≤ length heading.old) }
    ensures { heading.new ≡ spread (put_row map.now.layout) (pair_line zz_tag bytes.now) count 0 at heading.old }
{
    let mut p = at;
    for _line in 0..count {
        let l = entry_at(bytes, p);
        put_row(map, l, heading);
        p = l.next;
    }
}

// Behind the heading's numbers the row of each sparse column's entry; nothing where the pair is dense.
pub fn load_entry_rows(bytes: &[u8], starts: Starts, layout: Layout, heading: &mut [u32])
    requires { Ready bytes.now starts layout × (numbers_needed layout ≤ length heading.old) }
    ensures { (sheet : Sheet) → read_sheet bytes.now ≡ accepted sheet starts → heading.new ≡ store heading_length (pick layout.sparse (tab (levels layout 0) (entry_row_in sheet layout)) []) heading.old }
{
    if layout.sparse {
        let map = Map::of(layout);
        put_rows(bytes, starts.zz, levels::entries(starts), &map, heading);
    }
}
