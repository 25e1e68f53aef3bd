// Parts of number 20: flags of a heading, and room for what it says.
ghost use Rattle.std.specs.Prelude.{◌≡◌, true, not, ◌&&◌, ◌||◌, ◌+◌, ◌<◌, ◌≤◌, leb, ltb, length, get_or};
ghost use Rattle.layout.specs.Shapes.{levels, doubles_needed};
ghost use Rattle.heading_format.specs.Heading.{every, entry_row, valid_layout, numbers_needed};
ghost use Rattle.heading_format.specs.Parts.{sparse_at, diagonal_at, progress_at, heading_length};

use crate::order_check::level;
use block_places::places;
use heading_format::parts;
use layout::Layout;

// Whether a number of the heading is at most a bound.
fn at_most(heading: &[u32], at: usize, most: u32) -> bool
    requires { at < length heading.now }
    ensures { result ≡ leb (get_or heading.now at 0) most }
{
    heading[at] <= most
}

// Whether the row of a sparse column's entry is below a bound.
fn row_below(heading: &[u32], c: u64, rows: u64) -> bool
    requires { (heading_length + c < length heading.now) × (rows ≤ 65535) }
    ensures { result ≡ ltb (entry_row heading.now c) rows }
{
    heading[(parts::HEADING_LENGTH as u64 + c) as usize] < (rows as u32)
}

// Whether the rows of all sparse columns' entries are.
fn rows_below(heading: &[u32], cols: u64, rows: u64) -> bool
    requires { (heading_length + cols ≤ length heading.now) × (rows ≤ 65535) }
    ensures { result ≡ every (λ c. ltb (entry_row heading.now c) rows) cols }
{
    (0..cols).all(|c| row_below(heading, c, rows))
}

// Whether the numbers and the doubles are as many as a valid layout needs, and the rows of a sparse pair are rows of it.
pub fn has_room(heading: &[u32], layout: Layout, doubles: usize) -> bool
    requires { valid_layout layout ≡ true }
    ensures { result ≡ (leb (numbers_needed layout) (length heading.now) && leb (doubles_needed layout) doubles && (not layout.sparse || every (λ c. ltb (entry_row heading.now c) (levels layout 1)) (levels layout 0))) }
{
    let room = places::doubles_needed(layout) <= doubles;
    if layout.sparse {
        let cols = level(&layout, 0);
        if parts::HEADING_LENGTH as u64 + cols <= heading.len() as u64 {
            return room & rows_below(heading, cols, level(&layout, 1));
        }
        return false;
    }
    (parts::HEADING_LENGTH <= heading.len()) & room
}

// Whether the flags and the state have numbers of theirs.
pub fn has_flags(heading: &[u32]) -> bool
    requires { heading_length ≤ length heading.now }
    ensures { result ≡ (leb (get_or heading.now sparse_at 0) 1 && leb (get_or heading.now diagonal_at 0) 1 && leb (get_or heading.now progress_at 0) 2) }
{
    at_most(heading, parts::SPARSE_AT, 1)
        & at_most(heading, parts::DIAGONAL_AT, 1)
        & at_most(heading, parts::PROGRESS_AT, 2)
}
