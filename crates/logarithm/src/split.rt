// The logarithm of a power of two times a number near 1.

ghost use Rattle.std.specs.Prelude.{◌≡◌, ◌+◌, ◌*◌, ◌^◌, ◌<◌, ◌≤◌};
ghost use Rattle.logarithm.specs.exact_log.Log.{apart};
ghost use Rattle.logarithm.specs.fixed_point.Units.{chosen, ratio, series_part, ln_sum};
ghost use Rattle.logarithm.specs.split.Split.{Split};

use crate::{division, sign};

// |m - c| * 2^62 / (m + c).
pub fn quotient(m: u64, c: u64) -> u64
    requires { (5 * apart m c ≤ m + c) × (m < 2 ^ 53) × (0 < c) × (c ≤ 2 ^ 53) }
    ensures { result ≡ ratio (2 ^ 62) (apart m c) (m + c) }
{
    division::quotient_from_guess(m.abs_diff(c), m + c, division::guess(m, c))
}

// The logarithm of m / c * 2^u / 2^1074 with the series' part y of m / c. ln 2 is 744261117 * 2^32 + 4101234282 units, and in_units
// takes away 2^63 and 1074 times that.
pub fn sum_of_parts(m: u64, c: u64, u: u64, y: u64) -> f64
    requires { Split m c u × (y ≡ series_part chosen m c) }
    ensures { result ≡ ln_sum chosen m c u 1074 }
{
    let f = sign::signed_series(m, c, y);
    division::in_units(
        u * 744261117 + f / 4294967296,
        u * 4101234282 + f % 4294967296,
    )
}
