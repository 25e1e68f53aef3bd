// Every call under C's conventions, for C and Rust: any numbers and lists may be given. What each tells and leaves is defined in specs/Calls.antt;
// include/huskcanyon.h says it in words.
#![tactic(auto)]

mod answer_list;
mod tell_answers;

ghost use Rattle.std.specs.Prelude.{◌≡◌, map, ◌≤◌, length};
ghost use Rattle.square_root.specs.Root.{sqrt_of};
ghost use Rattle.logarithm.specs.Ln.{ln_of};
ghost use Rattle.workspace.specs.Response.{response};
ghost use Rattle.update.specs.Names.{step_of_name};
ghost use Rattle.profile.specs.Finish.{solve_of};
ghost use Rattle.capi.specs.Told.{leaves, word_of};
ghost use Rattle.capi.specs.Calls.{step_named, called, needs_call, load_call, begin_call, step_call, replace_call, profile_call, deviance_call, steps_call, determinant_call, pivot_call, solved, of_solving, solve_call};

use float_bits::words::word_of;
use update::StepName;

// What the boundary itself refuses.
const SHORT_ANSWER: u64 = 100;

const NO_MODE: u64 = 101;

const NO_KIND: u64 = 102;

const WORDS_LENGTH: u64 = 103;

// square_root::sqrt.
#[unsafe(no_mangle)]
pub extern "C" fn husk_sqrt(x: f64) -> f64
    ensures { result ≡ sqrt_of x }
{
    square_root::sqrt(x)
}

// logarithm::ln.
#[unsafe(no_mangle)]
pub extern "C" fn husk_ln(x: f64) -> f64
    ensures { result ≡ ln_of x }
{
    logarithm::ln(x)
}

// load::needs.
#[unsafe(no_mangle)]
pub extern "C" fn husk_needs(sheet: &[u8], answer: &mut [u64]) -> u64
    ensures { leaves result answer.new ≡ needs_call sheet.now answer.old }
{
    if answer.len() < 4 {
        return SHORT_ANSWER;
    }
    tell_answers::tell_needs(load::needs(sheet), answer)
}

// load::load.
#[unsafe(no_mangle)]
pub extern "C" fn husk_load(
    sheet: &[u8],
    heading: &mut [u32],
    doubles: &mut [f64],
    answer: &mut [u64],
) -> u64
    ensures { called result answer.new heading.new doubles.new ≡ load_call sheet.now heading.old doubles.old answer.old }
{
    if answer.len() < 2 {
        return SHORT_ANSWER;
    }
    tell_answers::tell_answer(load::load(sheet, heading, doubles), answer)
}

// begin::begin.
#[unsafe(no_mangle)]
pub extern "C" fn husk_begin(
    heading: &mut [u32],
    doubles: &mut [f64],
    theta: &[f64],
    answer: &mut [u64],
) -> u64
    ensures { called result answer.new heading.new doubles.new ≡ begin_call heading.old doubles.old theta.now answer.old }
{
    if answer.len() < 2 {
        return SHORT_ANSWER;
    }
    tell_answers::tell_answer(begin::begin(heading, doubles, theta), answer)
}

// The step of a kind, of which there are three.
fn name(kind: u64, i: u64, j: u64, h: u64) -> StepName
    ensures { step_of_name result ≡ step_named kind i j h }
{
    if kind == 0 {
        return StepName::S(i, j, h);
    }
    if kind == 1 {
        return StepName::C(i);
    }
    StepName::T(i, j)
}

// step::step.
#[unsafe(no_mangle)]
pub extern "C" fn husk_step(
    heading: &mut [u32],
    doubles: &mut [f64],
    kind: u64,
    i: u64,
    j: u64,
    h: u64,
    answer: &mut [u64],
) -> u64
    ensures { called result answer.new heading.new doubles.new ≡ step_call heading.old doubles.old kind i j h answer.old }
{
    if answer.len() < 2 {
        return SHORT_ANSWER;
    }
    if kind > 2 {
        return NO_KIND;
    }
    tell_answers::tell_answer(step::step(heading, doubles, name(kind, i, j, h)), answer)
}

// replace_response::replace_response.
#[unsafe(no_mangle)]
pub extern "C" fn husk_replace_response(
    heading: &mut [u32],
    doubles: &mut [f64],
    zty: &[f64],
    xty: &[f64],
    yty: &[f64],
    answer: &mut [u64],
) -> u64
    ensures { called result answer.new heading.new doubles.new ≡ replace_call heading.old doubles.old (response zty.now xty.now yty.now) answer.old }
{
    if answer.len() < 2 {
        return SHORT_ANSWER;
    }
    tell_answers::tell_answer(
        replace_response::replace_response(heading, doubles, zty, xty, yty),
        answer,
    )
}

// profile_deviance::profile_deviance.
#[unsafe(no_mangle)]
pub extern "C" fn husk_profile_deviance(
    heading: &mut [u32],
    doubles: &mut [f64],
    theta: &[f64],
    mode: u64,
    answer: &mut [u64],
) -> u64
    ensures { called result answer.new heading.new doubles.new ≡ profile_call heading.old doubles.old theta.now mode answer.old }
{
    if answer.len() < 5 {
        return SHORT_ANSWER;
    }
    if mode > 1 {
        return NO_MODE;
    }
    tell_answers::tell_deviance(
        profile_deviance::profile_deviance(heading, doubles, theta, mode == 1),
        answer,
    )
}

// deviance::deviance_from_factor.
#[unsafe(no_mangle)]
pub extern "C" fn husk_deviance_from_factor(
    heading: &[u32],
    doubles: &[f64],
    mode: u64,
    answer: &mut [u64],
) -> u64
    ensures { leaves result answer.new ≡ deviance_call heading.now doubles.now mode answer.old }
{
    if answer.len() < 5 {
        return SHORT_ANSWER;
    }
    if mode > 1 {
        return NO_MODE;
    }
    tell_answers::tell_deviance(
        deviance::deviance_from_factor(heading, doubles, mode == 1),
        answer,
    )
}

// The word of each double.
fn write_words(out: &[f64], words: &mut [u64])
    requires { length words.old ≡ length out.now }
    ensures { words.new ≡ map word_of out.now }
{
    for i in 0..out.len() {
        words[i] = word_of(out[i]);
    }
}

// The solution, and the words of the result list where it was written.
fn solve(
    heading: &[u32],
    doubles: &[f64],
    reml: bool,
    out: &mut [f64],
    words: &mut [u64],
    answer: &mut [u64],
) -> u64
    requires { (4 ≤ length answer.old) × (length words.old ≡ length out.old) }
    ensures { solved result answer.new out.new words.new ≡ of_solving (solve_of heading.now doubles.now reml out.old) words.old answer.old }
{
    let number = tell_answers::tell_solve(
        solve_profile::solve_profile_blocked(heading, doubles, reml, out),
        answer,
    );
    if (number == 0) | (number == 27) {
        write_words(out, words);
    }
    number
}

// solve_profile::solve_profile_blocked.
#[unsafe(no_mangle)]
pub extern "C" fn husk_solve_profile_blocked(
    heading: &[u32],
    doubles: &[f64],
    mode: u64,
    out: &mut [f64],
    words: &mut [u64],
    answer: &mut [u64],
) -> u64
    ensures { solved result answer.new out.new words.new ≡ solve_call heading.now doubles.now mode out.old words.old answer.old }
{
    if answer.len() < 4 {
        return SHORT_ANSWER;
    }
    if mode > 1 {
        return NO_MODE;
    }
    if words.len() != out.len() {
        return WORDS_LENGTH;
    }
    solve(heading, doubles, mode == 1, out, words, answer)
}

// views::steps_left.
#[unsafe(no_mangle)]
pub extern "C" fn husk_steps_left(heading: &[u32], answer: &mut [u64]) -> u64
    ensures { leaves result answer.new ≡ steps_call heading.now answer.old }
{
    if answer.len() < 3 {
        return SHORT_ANSWER;
    }
    tell_answers::tell_steps(views::steps_left(heading), answer)
}

// views::log_determinant.
#[unsafe(no_mangle)]
pub extern "C" fn husk_log_determinant(heading: &[u32], doubles: &[f64], answer: &mut [u64]) -> u64
    ensures { leaves result answer.new ≡ determinant_call heading.now doubles.now answer.old }
{
    if answer.len() < 4 {
        return SHORT_ANSWER;
    }
    tell_answers::tell_value(views::log_determinant(heading, doubles), answer)
}

// views::pivot.
#[unsafe(no_mangle)]
pub extern "C" fn husk_pivot(
    heading: &[u32],
    doubles: &[f64],
    block: u64,
    row: u64,
    answer: &mut [u64],
) -> u64
    ensures { leaves result answer.new ≡ pivot_call heading.now doubles.now block row answer.old }
{
    if answer.len() < 4 {
        return SHORT_ANSWER;
    }
    tell_answers::tell_view(views::pivot(heading, doubles, block, row), answer)
}
