// A double taken apart: what kind of value it is, and the significand and the exponent of one above 0.

ghost use Rattle.std.specs.Prelude.{◌≡◌, ◌<◌, ◌^◌};
ghost use Rattle.float_bits.specs.double.Parts.{digits, parts_of, leading};
ghost use Rattle.float_bits.specs.double.Kind.{kind_of};

// The double above 0 that is significand * 2^exponent / 2^1126: the significand has all its 53 digits.
#[derive(Clone, Copy)]
pub struct Parts {
    pub significand: u64,
    pub exponent: u64,
}

#[derive(Clone, Copy)]
pub enum Kind {
    // Finite and above 0.
    Positive(Parts),
    // +0 or -0.
    Zero,
    // Below 0, -infinity too.
    Negative,
    PlusInfinity,
    NotANumber,
}

// The digits of a subnormal, moved up until the leading one is in its place.
fn lifted(q: u64) -> Parts
    requires { (0 < q) × (q < 2 ^ 52) }
    ensures { result ≡ leading q 0 }
{
    let places = q.leading_zeros() - 11;
    Parts {
        significand: q << places,
        exponent: 52 - u64::from(places),
    }
}

// The parts of the double above 0 with the bits n.
fn of_bits(n: u64) -> Parts
    requires { 0 < digits n }
    ensures { result ≡ parts_of n }
{
    let f = n / 4503599627370496 % 2048;
    let t = n % 4503599627370496;
    if f == 0 {
        return lifted(t);
    }
    Parts {
        significand: 4503599627370496 + t,
        exponent: f + 51,
    }
}

// What kind of value x is. The common kind is tested first.
pub fn classify(x: f64) -> Kind
    ensures { result ≡ kind_of x }
{
    if x > 0.0 {
        if x < f64::INFINITY {
            return Kind::Positive(of_bits(x.to_bits()));
        }
        return Kind::PlusInfinity;
    }
    if x < 0.0 {
        return Kind::Negative;
    }
    if x == 0.0 {
        return Kind::Zero;
    }
    Kind::NotANumber
}
