// Puts the words of a run of a sheet's lines into their places (document 01, Record 3). Definitions are in specs/word_address/Spread.antt.
ghost use Rattle.std.specs.Prelude.{◌≡◌, true, ◌+◌, ◌≤◌, set};
ghost use Rattle.sheet.specs.Field.{is_finite};
ghost use Rattle.workspace.specs.Loaded.{double};
ghost use Rattle.load_numbers.specs.word_address.Spread.{line_of, EachLine, FiniteWord, spread, put_word};

use crate::word_address::Run;
use crate::{line_address, word_address};
use block_places::row_map::Map;

// The double of a word.
fn double_of(word: u64) -> f64
    requires { is_finite word ≡ true }
    ensures { result ≡ double word }
{
    f64::from_bits(word)
}

// One double in its place, where there is such a place.
fn put(doubles: &mut [f64], place: usize, x: f64)
    ensures { doubles.new ≡ set doubles.old place x }
{
    if place < doubles.len() {
        doubles[place] = x;
    }
}

// The words of a run of lines from `at` on into their places; its first line counts as line `from`.
pub fn scatter(
    run: Run,
    bytes: &[u8],
    at: usize,
    from: u64,
    count: u64,
    map: &Map,
    doubles: &mut [f64],
)
    requires { (from + count ≤ 1099511627776) × EachLine FiniteWord (line_of run bytes.now) count at }
    ensures { doubles.new ≡ spread (put_word run map.now.layout) (line_of run bytes.now) count from at doubles.old }
{
    let mut p = at;
    for i in from..from + count {
        let l = line_address::line_at(run, bytes, p);
        put(
            doubles,
            word_address::place_of(run, map, i, l),
            double_of(l.word),
        );
        p = l.next;
    }
}
