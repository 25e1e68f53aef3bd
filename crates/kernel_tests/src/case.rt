// A case of the list.
ghost use Rattle.std.specs.Prelude.{◌≤◌};

use crate::kernel::Kernel;

// A kernel, and what it is given beside lists: whole numbers, each at most 65535, and two doubles.
#[derive(Clone, Copy)]
pub struct Case {
    pub kernel: Kernel,
    pub p0: usize,
    pub p1: usize,
    pub p2: usize,
    pub p3: usize,
    pub p4: usize,
    pub p5: usize,
    pub p6: usize,
    pub s: f64,
    pub t: f64,
    ghost small: { (p0 ≤ 65535) × (p1 ≤ 65535) × (p2 ≤ 65535) × (p3 ≤ 65535) × (p4 ≤ 65535) × (p5 ≤ 65535) × (p6 ≤ 65535) },
}
