// The natural logarithm of a double (document 01, Record 4), fixed by a whole-number definition and within 2^-50 + 2^-52·|r| of the exact one.
#![tactic(auto)]

mod division;
mod exact_log;
mod fixed_point;
mod series;
mod sign;
mod split;

ghost use Rattle.std.specs.Prelude.{◌≡◌, ◌+◌, ◌*◌, ◌^◌};
ghost use Rattle.float_bits.specs.double.Parts.{InPlace};
ghost use Rattle.logarithm.specs.exact_log.Log.{apart, centre};
ghost use Rattle.logarithm.specs.fixed_point.Units.{chosen, ratio, series_part, ln_parts};
ghost use Rattle.logarithm.specs.Ln.{ln_of};

use float_bits::double::{Kind, Parts};
use float_bits::{double, wide_product};

// |m - c| * 2^62 / (m + c), where m is the significand and c its centre.
fn ratio_of(p: Parts) -> u64
    requires { InPlace p }
    ensures { result ≡ ratio (2 ^ 62) (apart p.significand (centre p.significand)) (p.significand + centre p.significand) }
{
    let m = p.significand;
    split::quotient(
        m,
        4503599627370496 * (1 + wide_product::above(m, 6755399441055743)),
    )
}

// The logarithm of the double above 0 with these parts, given the sum s of its series.
fn from_series(p: Parts, s: u64) -> f64
    requires { InPlace p × (2 * s ≡ series_part chosen p.significand (centre p.significand)) }
    ensures { result ≡ ln_parts chosen p }
{
    let m = p.significand;
    let t = p.exponent;
    let k = wide_product::above(m, 6755399441055743);
    split::sum_of_parts(m, 4503599627370496 * (1 + k), t + k, 2 * s)
}

// The logarithm of the double above 0 with these parts.
fn of_parts(p: Parts) -> f64
    requires { InPlace p }
    ensures { result ≡ ln_parts chosen p }
{
    from_series(p, series::artanh_series(ratio_of(p)))
}

// The natural logarithm, to the bit as specs/Ln.antt has it, by kinds, and specs/fixed_point/Units.antt for a double above 0.
pub fn ln(x: f64) -> f64
    ensures { result ≡ ln_of x }
{
    match double::classify(x) {
        Kind::Positive(p) => of_parts(p),
        Kind::Zero => f64::NEG_INFINITY,
        Kind::Negative => f64::NAN,
        Kind::PlusInfinity => x,
        Kind::NotANumber => x,
    }
}
