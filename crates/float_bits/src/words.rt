// The double that a word is, and the word of a double.
ghost use Rattle.std.specs.Prelude.{◌≡◌};
ghost use Rattle.std.specs.Float.{binary64};
ghost use Rattle.std.specs.Float.Ieee.{of_bits, to_bits};

// The word of -0, which is the sign's bit, that of the infinity above 0, and the one that stands for every NaN.
pub const SIGN: u64 = 0x8000000000000000;

const INFINITY: u64 = 0x7ff0000000000000;

const NAN: u64 = 0x7ff8000000000000;

// The double of a word. Each NaN's word gives the one NaN, since from_bits takes none.
pub fn double(word: u64) -> f64
    ensures { result ≡ of_bits binary64 word }
{
    if word % SIGN > INFINITY {
        return f64::NAN;
    }
    f64::from_bits(word)
}

// The word of a double, of a NaN always the same one.
pub fn word_of(x: f64) -> u64
    ensures { result ≡ to_bits binary64 x }
{
    if x.is_nan() {
        return NAN;
    }
    x.to_bits()
}
