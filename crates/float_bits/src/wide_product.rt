// The product of two 64-bit words, which has up to 128 bits: its high and its low word.

ghost use Rattle.std.specs.Prelude.{◌≡◌, cond, ltb, ◌*◌, ◌/◌, ◌%◌, ◌^◌, ◌≤◌};

// The high word.
pub fn high(x: u64, y: u64) -> u64
    ensures { result ≡ x * y / 2 ^ 64 }
{
    ((u128::from(x) * u128::from(y)) >> 64) as u64
}

// The low word.
pub fn low(x: u64, y: u64) -> u64
    ensures { result ≡ x * y % 2 ^ 64 }
{
    x.wrapping_mul(y)
}

// 1 where a is above b, and 0 otherwise: a carry, a borrow, a choice without a branch.
pub fn above(a: u64, b: u64) -> u64
    ensures { (result ≡ cond (ltb b a) 1 0) × (result ≤ 1) }
{
    u64::from(a > b)
}
