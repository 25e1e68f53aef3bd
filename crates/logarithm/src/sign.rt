// The series' part of a logarithm with its sign.

ghost use Rattle.std.specs.Prelude.{◌≡◌, ◌+◌, ◌-◌, ◌^◌, ◌<◌, if◌then◌else◌, nat_lt};

// 2^63 and y, or 2^63 less y where the significand m is below its centre c.
pub fn signed_series(m: u64, c: u64, y: u64) -> u64
    requires { y < 2 ^ 63 }
    ensures { result ≡ (if nat_lt m c then 2 ^ 63 - y else 2 ^ 63 + y) }
{
    if m < c {
        9223372036854775808 - y
    } else {
        9223372036854775808 + y
    }
}
