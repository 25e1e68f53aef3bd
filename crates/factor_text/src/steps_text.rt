// What the program `factor` prints once theta is read: the pivots, or the refused one.
ghost use Rattle.std.specs.Prelude.{◌≡◌, true, ◌≤◌, length, Ok};
ghost use Rattle.step_order.specs.Steps.{rust_order};
ghost use Rattle.heading_format.specs.Heading.{layout_of, valid_heading};
ghost use Rattle.workspace.specs.Answers.{workspace};
ghost use Rattle.profile_deviance.specs.ready_step.ReadyInTurn.{ReadyInTurn};
ghost use Rattle.factor_output.specs.Program.{print_steps, after_begin, factor_with};
ghost use Rattle.factor_text.specs.refusal_text.Text.{Text};

use crate::{MOST_BYTES, pivot_lines, refusal_text};
use profile_deviance::rust_order;
use refusal::Refusal;

// What the steps came to: the pivots of every block, or the refusal that ended them.
fn put_steps(
    a: Result<(), Refusal>,
    heading: &[u32],
    doubles: &[f64],
    out: &mut [u8; MOST_BYTES],
) -> usize
    requires { (a ≡ Ok tt → valid_heading heading.now (length doubles.now) ≡ true) × (length doubles.now ≤ 4096) }
    ensures { Text (print_steps a (workspace heading.now doubles.now) (layout_of heading.now).k) result out.old out.new }
{
    match a {
        Ok(()) => pivot_lines::put_pivots(heading, doubles, out),
        Err(r) => refusal_text::put_refusal(out, r.numbers()),
    }
}

// What begin came to: the steps in the Rust's order, or its refusal.
fn put_begun(
    a: Result<(), Refusal>,
    heading: &mut [u32],
    doubles: &mut [f64],
    k: u64,
    out: &mut [u8; MOST_BYTES],
) -> usize
    requires { (a ≡ Ok tt → ReadyInTurn (workspace heading.old doubles.old) (rust_order k) × ((layout_of heading.old).k ≡ k)) × (length doubles.old ≤ 4096) }
    ensures { Text (after_begin a (workspace heading.old doubles.old) k) result out.old out.new }
{
    match a {
        Ok(()) => {
            let b = rust_order::run(heading, doubles, k);
            put_steps(b, heading, doubles, out)
        }
        Err(r) => refusal_text::put_refusal(out, r.numbers()),
    }
}

// Begin with theta, and what it came to.
pub fn put_factor(
    heading: &mut [u32],
    doubles: &mut [f64],
    theta: &[f64],
    out: &mut [u8; MOST_BYTES],
) -> usize
    requires { (length doubles.old ≤ 4096) }
    ensures { Text (factor_with (workspace heading.old doubles.old) (length theta.now) theta.now) result out.old out.new }
{
    let a = begin::begin(heading, doubles, theta);
    put_begun(a, heading, doubles, theta.len() as u64, out)
}
