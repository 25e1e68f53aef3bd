// The root of a double above 0 from its significand and exponent.

ghost use Rattle.std.specs.Prelude.{◌≡◌, ◌*◌, ◌^◌, ◌<◌};
ghost use Rattle.float_bits.specs.double.Parts.{InPlace};
ghost use Rattle.square_root.specs.parts.Radicand.{root_of};

use crate::inverse_table;
use crate::whole_root::Radicand;
use float_bits::double::Parts;

// The root of the double above 0 with these parts.
pub fn of_parts(p: Parts) -> f64
    requires { InPlace p }
    ensures { result ≡ root_of p }
{
    let e = p.exponent;
    let b = e % 2;
    let x = Radicand {
        m: p.significand << b,
    };
    let v = inverse_table::inverse(p.significand, b);
    let s = inverse_table::root_near(x, v);
    f64::from_bits((e / 2 + 485) * 4503599627370496 + s)
}
