// The line of a refusal (document 01, worked sheets).
ghost use Rattle.std.specs.Prelude.{◌≤◌, length};
ghost use Rattle.factor_output.specs.Print.{refused_line};
ghost use Rattle.factor_text.specs.refusal_text.Text.{Text};

use crate::MOST_BYTES;
use refusal::Numbers;
use text_output::print_lines;

// A refusal alone, from the first byte on.
pub fn put_refusal(out: &mut [u8; MOST_BYTES], n: Numbers) -> usize
    ensures { Text (refused_line n.number n.first n.second) result out.old out.new }
{
    print_lines::put_refused(out, 0, n.number, n.first, n.second)
}
