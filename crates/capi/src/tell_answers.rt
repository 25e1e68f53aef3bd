// Each kind of answer as its number and words.
ghost use Rattle.std.specs.Prelude.{◌≡◌, ◌≤◌, length, Ok};
ghost use Rattle.refusal.specs.Numbers.{meaning};
ghost use Rattle.profile.specs.Deviance.{deviance_meaning};
ghost use Rattle.profile.specs.Finish.{solve_meaning};
ghost use Rattle.views.specs.Views.{steps_meaning, value_meaning, view_meaning};
ghost use Rattle.capi.specs.Told.{leaves, told_answer, told_deviance, told_solve, told_needs, told_steps, told_view};
ghost use Rattle.load.specs.room.Needs.{needs_meaning};

use crate::answer_list::tell;
use float_bits::words::word_of;
use load::room::Room;
use profile::{Deviance, Solution};
use refusal::{Numbers, Refusal};

// The word of f64::MAX, which the Rust gives where there is no deviance.
const LARGEST: u64 = 0x7fefffffffffffff;

// Of what is not refused.
const NONE: Numbers = Numbers {
    number: 0,
    first: 0,
    second: 0,
};

// A call that gives no value.
pub fn tell_answer(a: Result<(), Refusal>, answer: &mut [u64]) -> u64
    requires { 2 ≤ length answer.old }
    ensures { leaves result answer.new ≡ told_answer (meaning a) answer.old }
{
    match a {
        Ok(()) => tell(NONE, [], answer),
        Err(r) => tell(r.numbers(), [], answer),
    }
}

// Record 6's three cases.
fn tell_given(d: Deviance, answer: &mut [u64]) -> u64
    requires { 5 ≤ length answer.old }
    ensures { leaves result answer.new ≡ told_deviance (deviance_meaning (Ok d)) answer.old }
{
    match d {
        Deviance::Value(x) => tell(NONE, [1, word_of(x), word_of(x)], answer),
        Deviance::Pivot(block, row) => tell(
            Refusal::PivotRefused { block, row }.numbers(),
            [2, 0, LARGEST],
            answer,
        ),
        Deviance::NoScale => tell(NONE, [3, 0, LARGEST], answer),
    }
}

// A call that gives a deviance.
pub fn tell_deviance(a: Result<Deviance, Refusal>, answer: &mut [u64]) -> u64
    requires { 5 ≤ length answer.old }
    ensures { leaves result answer.new ≡ told_deviance (deviance_meaning a) answer.old }
{
    match a {
        Ok(d) => tell_given(d, answer),
        Err(r) => tell(r.numbers(), [0, 0, 0], answer),
    }
}

// A solution's two scalars.
pub fn tell_solve(s: Result<Solution, Refusal>, answer: &mut [u64]) -> u64
    requires { 4 ≤ length answer.old }
    ensures { leaves result answer.new ≡ told_solve (solve_meaning s) answer.old }
{
    match s {
        Ok(x) => tell(NONE, [word_of(x.deviance), word_of(x.sigma2)], answer),
        Err(r) => tell(r.numbers(), [0, 0], answer),
    }
}

// The room that a sheet wants.
pub fn tell_needs(n: Result<Room, Refusal>, answer: &mut [u64]) -> u64
    requires { 4 ≤ length answer.old }
    ensures { leaves result answer.new ≡ told_needs (needs_meaning n) answer.old }
{
    match n {
        Ok(room) => tell(NONE, [room.doubles, room.numbers], answer),
        Err(r) => tell(r.numbers(), [0, 0], answer),
    }
}

// The steps left.
pub fn tell_steps(s: Result<u64, Refusal>, answer: &mut [u64]) -> u64
    requires { 3 ≤ length answer.old }
    ensures { leaves result answer.new ≡ told_steps (steps_meaning s) answer.old }
{
    match s {
        Ok(left) => tell(NONE, [left], answer),
        Err(r) => tell(r.numbers(), [0], answer),
    }
}

// A double of a finished factor.
pub fn tell_value(v: Result<f64, Refusal>, answer: &mut [u64]) -> u64
    requires { 4 ≤ length answer.old }
    ensures { leaves result answer.new ≡ told_view (value_meaning v) answer.old }
{
    match v {
        Ok(x) => tell(NONE, [1, word_of(x)], answer),
        Err(r) => tell(r.numbers(), [0, 0], answer),
    }
}

// A double that there may be none of.
pub fn tell_view(v: Result<Option<f64>, Refusal>, answer: &mut [u64]) -> u64
    requires { 4 ≤ length answer.old }
    ensures { leaves result answer.new ≡ told_view (view_meaning v) answer.old }
{
    match v {
        Ok(Some(x)) => tell(NONE, [1, word_of(x)], answer),
        Ok(None) => tell(NONE, [0, 0], answer),
        Err(r) => tell(r.numbers(), [0, 0], answer),
    }
}
