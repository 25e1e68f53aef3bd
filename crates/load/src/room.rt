// How long a workspace is that holds a layout (document 01, Record 2 and number 12).
ghost use Rattle.std.specs.Prelude.{◌≡◌, true};
ghost use Rattle.heading_format.specs.Heading.{valid_layout, numbers_needed};
ghost use Rattle.workspace.specs.Load.{has_room};
ghost use Rattle.load.specs.room.Needs.{room_of};

use block_places::places;
use heading_format::parts;
use layout::Layout;

// The lengths of the two lists that a workspace is made of.
#[derive(Clone, Copy)]
pub struct Room {
    pub doubles: u64,
    pub numbers: u64,
}

// How many numbers a workspace has: the heading, and one for each column of a sparse pair.
fn numbers_needed(layout: Layout) -> u64
    requires { valid_layout layout ≡ true }
    ensures { result ≡ numbers_needed layout }
{
    if layout.sparse {
        return parts::HEADING_LENGTH as u64 + layout.m[0];
    }
    parts::HEADING_LENGTH as u64
}

// The room that a layout needs.
pub fn room_of(layout: Layout) -> Room
    requires { valid_layout layout ≡ true }
    ensures { result ≡ room_of layout }
{
    Room {
        doubles: places::doubles_needed(layout) as u64,
        numbers: numbers_needed(layout),
    }
}

// Whether both lists are long enough (12).
pub fn has_room(layout: Layout, heading: &[u32], w: &[f64]) -> bool
    requires { valid_layout layout ≡ true }
    ensures { result ≡ has_room layout heading.now w.now }
{
    let room = room_of(layout);
    let numbers = room.numbers <= heading.len() as u64;
    let doubles = room.doubles <= w.len() as u64;
    numbers & doubles
}
