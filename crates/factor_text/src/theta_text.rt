// What the program `factor` prints of a loaded sheet: the theta part is read, and its refusals come first.
ghost use Rattle.std.specs.Prelude.{◌≤◌, ◌<◌, ◌+◌, length, Ok};
ghost use Rattle.workspace.specs.Answers.{workspace};
ghost use Rattle.factor_output.specs.Program.{after_load};
ghost use Rattle.factor_text.specs.refusal_text.Text.{Text};

use crate::{MOST_BYTES, refusal_text, steps_text, theta_part};
use refusal::Refusal;
use sheet::{LineStart, Starts};

// The theta part behind an accepted sheet, and begin with it; a line there that is not what is due, or one left over, is 2.
pub fn put_theta(
    bytes: &[u8],
    starts: Starts,
    heading: &mut [u32],
    doubles: &mut [f64],
    out: &mut [u8; MOST_BYTES],
) -> usize
    requires { (starts.counts.k ≤ 8) × (starts.line + starts.counts.k < 9223372036854775808) × (length doubles.old ≤ 4096) }
    ensures { Text (after_load (Ok tt) (workspace heading.old doubles.old) starts.counts bytes.now starts) result out.old out.new }
{
    let k = starts.counts.k;
    let mut theta = [0f64; layout::MOST_THETA];
    let from = LineStart {
        at: starts.end,
        line: starts.line,
    };
    match theta_part::read_theta(bytes, from, k, &mut theta) {
        Ok(end) => {
            if end.at == bytes.len() {
                return steps_text::put_factor(heading, doubles, &theta[..k as usize], out);
            }
            refusal_text::put_refusal(out, Refusal::OutOfForm { line: end.line }.numbers())
        }
        Err(r) => refusal_text::put_refusal(out, Refusal::OutOfForm { line: r.line }.numbers()),
    }
}
