// What kind of double a word is (document 01, Record 1 and numbers 3 and 9).
ghost use Rattle.std.specs.Prelude.{◌≡◌};
ghost use Rattle.sheet.specs.Field.{is_finite, is_zero};

// Whether a word is neither infinite nor NaN.
pub fn is_finite(w: u64) -> bool
    ensures { result ≡ is_finite w }
{
    w % 9223372036854775808 / 4503599627370496 != 2047
}

// Whether a word is +0 or -0.
pub fn is_zero(w: u64) -> bool
    ensures { result ≡ is_zero w }
{
    w % 9223372036854775808 == 0
}
