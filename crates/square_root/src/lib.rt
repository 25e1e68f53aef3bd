// The square root of a double: the nearest double, by whole-number squares (document 01, Record 4).
#![tactic(auto)]

mod inverse_table;
mod parts;
mod whole_root;

ghost use Rattle.std.specs.Prelude.{◌≡◌};
ghost use Rattle.square_root.specs.Root.{sqrt_of};

use float_bits::double;
use float_bits::double::Kind;

// The square root, to the bit as specs/Root.antt has it.
pub fn sqrt(x: f64) -> f64
    ensures { result ≡ sqrt_of x }
{
    match double::classify(x) {
        Kind::Positive(p) => parts::of_parts(p),
        Kind::Zero => x,
        Kind::Negative => f64::NAN,
        Kind::PlusInfinity => x,
        Kind::NotANumber => x,
    }
}
