// Reads the theta part of the input of the program `factor` (document 01, "Worked sheets"): a line for each block, in the sheet's order. What it is
// to answer is defined in the crate factor_output, specs/Program.antt.
ghost use Rattle.std.specs.Prelude.{◌≡◌, ◌+◌, ◌≤◌, ◌<◌, length, take, IfOk};
ghost use Rattle.sheet.specs.Run.{cursor_at, reached, pass_of};
ghost use Rattle.factor_output.specs.Program.{theta_verdict, theta_lines};

use float_bits::words;
use sheet::{Line, LineStart, SheetRefusal};
use sheet_reader::field::NOWHERE;
use sheet_reader::single_line;

// Past a theta line, whose index is to be i; one that is not in form or has another index is refused, with 2.
#[tactic(auto, unfolding(sheet::specs::Run::pass_of))]
fn theta_line(l: Line, i: u64, p: LineStart) -> Result<LineStart, SheetRefusal>
    requires { p.line < 9223372036854775808 }
    ensures { result ≡ reached (pass_of (cursor_at p) (theta_verdict (i, 0) l) l.next) }
{
    if (l.next != NOWHERE) & (l.first == i) {
        return Ok(LineStart {
            at: l.next,
            line: p.line + 1,
        });
    }
    Err(SheetRefusal {
        number: 2,
        line: p.line,
    })
}

// The k theta lines, index 0 to k - 1 rising: their doubles go to the first k places of theta, while the lines are in form. Past them, or the first
// line that is refused.
pub fn read_theta(
    bytes: &[u8],
    from: LineStart,
    k: u64,
    theta: &mut [f64],
) -> Result<LineStart, SheetRefusal>
    requires { (from.line + k < 9223372036854775808) × (k ≤ 8) × (8 ≤ length theta.old) }
    ensures past { result ≡ reached (theta_lines bytes.now k (cursor_at from)).past }
    ensures items { IfOk result (λ p. take k theta.new ≡ (theta_lines bytes.now k (cursor_at from)).items) }
    ensures same_length { length theta.new ≡ length theta.old }
{
    let mut p = from;
    for i in 0..k {
        let l = single_line::single_line(b"theta\t", bytes, p.at);
        theta[i as usize] = words::double(l.word);
        p = theta_line(l, i, p)?;
    }
    Ok(p)
}
