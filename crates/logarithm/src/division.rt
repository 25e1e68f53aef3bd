// The steps of the logarithm around its series: the quotient in units, and units as a double.

ghost use Rattle.std.specs.Prelude.{◌≡◌, ◌+◌, ◌*◌, ◌^◌, ◌<◌, ◌≤◌, nat_lt};
ghost use Rattle.std.specs.Float.{binary64};
ghost use Rattle.std.specs.Float.Ieee.{round};
ghost use Rattle.logarithm.specs.exact_log.Log.{apart};
ghost use Rattle.logarithm.specs.fixed_point.Units.{ratio};

// a * 2^62 / b, by long division, two digits at a time: what is left to do where a guess fails, which has not been seen.
fn long_division(a: u64, b: u64) -> u64
    requires { (a < b) × (b < 2 ^ 54) }
    ensures { result ≡ ratio (2 ^ 62) a b }
{
    let mut q: u64 = 0;
    let mut r = a;
    for turn in 0..31u64 {
        let n = r * 4;
        q = q * 4 + n / b;
        r = n % b;
    }
    q
}

// f64::max tests for a NaN too, which costs a twentieth of a logarithm's time here.
fn larger(x: f64, y: f64) -> f64 {
    if x > y { x } else { y }
}

// About |m - c| * 2^54 / (m + c), some units below it. All that is proved of it is its range.
// In floats m and c are m / 2^52 and c / 2^52, and a quarter added to the quotient has its digits from 2^-54 up in the bits.
pub fn guess(m: u64, c: u64) -> u64
    requires { (m ≤ 2 ^ 53) × (c ≤ 2 ^ 53) }
    ensures { result < 2 ^ 52 }
{
    let v = f64::from_bits(4602678819172646912 + m);
    let w = f64::from_bits(4602678819172646912 + c);
    let q = larger(v - w, w - v) / (v + w) + 0.25;
    if q.is_nan() {
        return 0;
    }
    (q.to_bits() % 4503599627370496).saturating_sub(2)
}

// a * 2^62 / b from a guess g at a * 2^54 / b: what g * b leaves of a * 2^54 is divided once, in units of 2^-8. Where the guess is too
// far off, by long division.
pub fn quotient_from_guess(a: u64, b: u64, g: u64) -> u64
    requires { (a < b) × (b < 2 ^ 54) × (g < 2 ^ 52) }
    ensures { result ≡ ratio (2 ^ 62) a b }
{
    let product = u128::from(g) * u128::from(b);
    let rest = (u128::from(a) << 54).wrapping_sub(product);
    if rest < 72057594037927936 {
        return g * 256 + rest as u64 * 256 / b;
    }
    long_division(a, b)
}

// h * 2^32 + l units of 2^-62, less 801483923306 * 2^32 + 4404725618868, as a double, rounded once. The numbers go into the last
// digits of 2^22 and 2^-10, where they count units of 2^-30 and 2^-62, and both differences are exact.
pub fn in_units(h: u64, l: u64) -> f64
    requires { (h < 2 ^ 52) × (l < 2 ^ 52) }
    ensures { result ≡ round binary64 (nat_lt (h * 2 ^ 32 + l) 3442347243273767819444) (apart (h * 2 ^ 32 + l) 3442347243273767819444) (2 ^ 62) }
{
    f64::from_bits(4706261610602168320 + h) - 4195050.440070966
        + (f64::from_bits(4562146422526312448 + l) - 0.0009775176226170358)
}
