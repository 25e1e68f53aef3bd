// Whether an answer agrees with a listed one: it lies between two words, NaN being one value.
ghost use Rattle.std.specs.Prelude.{◌≡◌, ◌<◌};
ghost use Rattle.float_bits.specs.words.Words.{agrees_of};
ghost use Rattle.float_bits.specs.words.Words.{rank as rank_of};

use float_bits::words;
use float_bits::words::SIGN;

// A word's place in the order of doubles.
fn rank(w: u64) -> u64
    ensures { result ≡ rank_of w }
{
    if w < SIGN {
        return SIGN + w;
    }
    u64::MAX - w
}

// Whether a result lies from lower to upper.
pub fn agrees(lower: u64, upper: u64, r: f64) -> bool
    ensures { result ≡ agrees_of lower upper r }
{
    let w = rank(words::word_of(r));
    (rank(lower) <= w) & (w <= rank(upper))
}
