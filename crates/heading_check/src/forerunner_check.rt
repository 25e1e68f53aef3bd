// The steps of the Rust's order, each asked whether it is done and its forerunners are (document 01, Record 5 and number 20).
ghost use Rattle.std.specs.Prelude.{◌≡◌, true, ◌∷◌, ◌++◌, [], suc, ◌+◌, ◌-◌, ◌<◌, ◌≤◌, length};
ghost use Rattle.step_order.specs.Steps.{C, T, each, subtractions, column_steps, rust_order};
ghost use Rattle.heading_check.specs.stage_check.Walk.{stepped, walked, stages_in};
ghost use Rattle.heading_format.specs.Parts.{heading_length};

use crate::stage_check;
use crate::stage_check::Walk;

// C(j): it comes after the subtractions of its own target alone.
fn factor(heading: &[u32], w: Walk, j: u64) -> Walk
    requires { (heading_length ≤ length heading.now) × (j ≤ 8) × (w.left ≤ 5000) }
    ensures { (result ≡ stepped (stages_in heading.now) w (C j)) × (result.left ≤ w.left + 1) }
{
    let s = stage_check::stage(heading, j, j);
    stage_check::count_step(w, j < s, true)
}

// T(i,j): it comes after C(j).
fn solve(heading: &[u32], w: Walk, i: u64, j: u64) -> Walk
    requires { (heading_length ≤ length heading.now) × (j < i) × (i ≤ 8) × (w.left ≤ 5000) }
    ensures { (result ≡ stepped (stages_in heading.now) w (T i j)) × (result.left ≤ w.left + 1) }
{
    let s = stage_check::stage(heading, i, j);
    let d = stage_check::stage(heading, j, j);
    stage_check::count_step(w, j < s, j < d)
}

// All S(i,j,x), x rising.
fn subtract_all(heading: &[u32], w: Walk, i: u64, j: u64) -> Walk
    requires { (heading_length ≤ length heading.now) × (j ≤ i) × (i ≤ 8) × (w.left ≤ 4000) }
    ensures { (result ≡ walked (stages_in heading.now) w (subtractions i j)) × (result.left ≤ w.left + 8) }
{
    let mut v = w;
    for x in 0..j {
        v = stage_check::subtraction(heading, v, i, j, x);
    }
    v
}

// The steps of target (i, j) below the diagonal.
fn target(heading: &[u32], w: Walk, i: u64, j: u64) -> Walk
    requires { (heading_length ≤ length heading.now) × (j < i) × (i ≤ 8) × (w.left ≤ 4000) }
    ensures { (result ≡ walked (stages_in heading.now) w (subtractions i j ++ (T i j ∷ []))) × (result.left ≤ w.left + 9) }
{
    let v = subtract_all(heading, w, i, j);
    solve(heading, v, i, j)
}

// The targets of column j below the diagonal.
fn below(heading: &[u32], w: Walk, j: u64, k: u64) -> Walk
    requires { (heading_length ≤ length heading.now) × (j ≤ k) × (k ≤ 8) × (w.left ≤ 3000) }
    ensures { (result ≡ walked (stages_in heading.now) w (each (λ i. subtractions i j ++ (T i j ∷ [])) (suc j) (k - j))) × (result.left ≤ w.left + 81) }
{
    let mut v = w;
    for i in j + 1..k + 1 {
        v = target(heading, v, i, j);
    }
    v
}

// Column j.
fn column(heading: &[u32], w: Walk, j: u64, k: u64) -> Walk
    requires { (heading_length ≤ length heading.now) × (j ≤ k) × (k ≤ 8) × (w.left ≤ 2000) }
    ensures { (result ≡ walked (stages_in heading.now) w (column_steps k j)) × (result.left ≤ w.left + 90) }
{
    let u = subtract_all(heading, w, j, j);
    let v = factor(heading, u, j);
    below(heading, v, j, k)
}

// The Rust's order.
pub fn walk_all(heading: &[u32], k: u64) -> Walk
    requires { (heading_length ≤ length heading.now) × (k ≤ 8) }
    ensures { result ≡ walked (stages_in heading.now) (record { left = 0; valid = true }) (rust_order k) }
{
    let mut v = Walk {
        left: 0,
        valid: true,
    };
    for j in 0..k + 1 {
        v = column(heading, v, j, k);
    }
    v
}
