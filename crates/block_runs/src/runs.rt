// A run of a list of doubles: cleared, copied, or each of its doubles made anew.
ghost use Rattle.std.specs.Prelude.{◌≡◌, ◌+◌, ◌≤◌, ◌<◌, length, ℕ, Float};
ghost use Rattle.rules.specs.Arithmetic.{ieee};
ghost use Rattle.block_runs.specs.axpy.Axpy.{at, run, Changed};

// The first n doubles of acc become +0.
pub fn clear(acc: &mut [f64], n: usize)
    requires { n ≤ length acc.old }
    ensures { acc.new ≡ run 0 n (λ i. ieee.zero) acc.old }
{
    acc[..n].fill(0.0);
}

// n doubles of t from `to` on become those of s from `from` on. The loop compiles to one copy; `copy_from_slice` tests first whether the two lists
// overlap, a twentieth of S of two fixed rows by a sparse block (speed).
pub fn copy(t: &mut [f64], to: usize, n: usize, s: &[f64], from: usize)
    requires { (to + n ≤ length t.old) × (from + n ≤ length s.now) }
    ensures { t.new ≡ run to n (λ i. at s.now (from + i)) t.old }
{
    for i in 0..n {
        t[to + i] = s[from + i];
    }
}

// Double i of the n doubles of t from `to` on becomes f of i and what it was.
fn change_part<F: Fn(usize, f64) -> f64>(t: &mut [f64], to: usize, n: usize, f: F)
    requires room { to + n ≤ length t.old }
    requires always { (i : ℕ) (x : Float) → i < n → F.pre f i x }
    ensures { Changed n (F.post f) to t.old t.new }
{
    for i in 0..n {
        t[to + i] = f(i, t[to + i]);
    }
}

// The same on the block that lies from `off` on in `doubles`, which is lent as the part that starts at its own offset.
pub fn change<F: Fn(usize, f64) -> f64>(doubles: &mut [f64], off: usize, to: usize, n: usize, f: F)
    requires room { (off ≤ to) × (to + n ≤ length doubles.old) }
    requires always { (i : ℕ) (x : Float) → i < n → F.pre f i x }
    ensures { Changed n (F.post f) to doubles.old doubles.new }
{
    change_part(&mut doubles[off..to + n], to - off, n, f);
}

// n doubles from `to` on of the block at `off`, each less the one of acc.
pub fn subtract(doubles: &mut [f64], off: usize, to: usize, n: usize, acc: &[f64])
    requires { (off ≤ to) × (to + n ≤ length doubles.old) × (n ≤ length acc.now) }
    ensures { doubles.new ≡ run to n (λ i. ieee.minus (at doubles.old (to + i)) (at acc.now i)) doubles.old }
{
    change(doubles, off, to, n, |i, x| x - acc[i]);
}
