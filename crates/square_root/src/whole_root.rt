// The whole number nearest to a root.

ghost use Rattle.std.specs.Prelude.{◌≡◌, ◌+◌, ◌-◌, ◌*◌, ◌^◌, ◌<◌, ◌≤◌, IfSome};
ghost use Rattle.square_root.specs.whole_root.Whole.{rounded};

// The radicand m * 2^52, from 2^104 to 2^106.
#[derive(Clone, Copy)]
pub struct Radicand {
    pub m: u64,
    pub ghost in_range: { (2 ^ 52 ≤ m) × (m ≤ 2 ^ 54 - 2) },
}

impl Radicand {
    // The rounded root by the library's whole root: what is left to do where an estimate fails, which has not been seen.
    #[inline(never)]
    pub fn root(self) -> u64
        ensures { result ≡ rounded (self.m * 2 ^ 52) }
    {
        let n = u128::from(self.m) << 52;
        let r = n.isqrt();
        r as u64 + u64::from(n - r * r > r)
    }

    // The rounded root, given g and what its square leaves: rest says whether g or g + 1 is nearest, unless g is too far off.
    pub fn root_from_remainder(self, g: u64, rest: u64) -> Option<u64>
        requires { (g < 2 ^ 54) × (rest + g * g ≡ self.m * 2 ^ 52) }
        ensures { IfSome result (λ s. s ≡ rounded (self.m * 2 ^ 52)) }
    {
        if rest > 3 * g + 2 {
            return None;
        }
        Some(g + u64::from(rest > g))
    }
}
