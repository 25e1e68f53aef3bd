// The series of the logarithm.

ghost use Rattle.std.specs.Prelude.{◌≡◌, ◌*◌, ◌/◌, ◌^◌, ◌≤◌};
ghost use Rattle.logarithm.specs.fixed_point.Units.{horner};

use float_bits::wide_product;

// The inverse hyperbolic tangent of z / 2^62, by ten terms of its series. The compiler unrolls the loop and works out the reciprocals.
pub fn artanh_series(z: u64) -> u64
    requires { 5 * z ≤ 2 ^ 62 }
    ensures { result ≡ z * horner (2 ^ 62) (z * z / 2 ^ 62) 0 10 / 2 ^ 62 }
{
    let t = 4 * wide_product::high(4 * z, z);
    let mut s: u64 = 0;
    for k in (1..10u64).rev() {
        s = 4611686018427387904 / (2 * k + 1) + wide_product::high(s, t);
    }
    z + wide_product::high(4 * z, wide_product::high(s, t))
}
