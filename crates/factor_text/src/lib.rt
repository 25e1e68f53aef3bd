// The work of the program `factor` (document 01, "Worked sheets"): from the bytes of a sheet and its theta part to the bytes of its pivots, or of a
// refusal, which is then the only line. What it prints is defined in the crate factor_output, specs/Program.antt.
#![tactic(auto)]

mod pivot_lines;
mod refusal_text;
mod steps_text;
mod theta_part;
mod theta_text;

ghost use Rattle.std.specs.Prelude.{◌≡◌, ◌≤◌, ◌<◌, ◌+◌, length};
ghost use Rattle.sheet.specs.Sheet.{Sheet, accepted, read_sheet};
ghost use Rattle.sheet.specs.Fault.{fault_number};
ghost use Rattle.workspace.specs.Answers.{workspace};
ghost use Rattle.factor_output.specs.Program.{after_load, after_read};
ghost use Rattle.factor_text.specs.refusal_text.Text.{Text};
ghost use Rattle.factor_text.specs.Written.{Written};

use heading_format::parts;
use refusal::{Numbers, Refusal};
use sheet::Starts;

// No output has more bytes.
const MOST_BYTES: usize = 131072;

// What load came to: the theta part, or its refusal.
fn put_loaded(
    a: Result<(), Refusal>,
    bytes: &[u8],
    starts: Starts,
    heading: &mut [u32],
    doubles: &mut [f64],
    out: &mut [u8; MOST_BYTES],
) -> usize
    requires { (starts.counts.k ≤ 8) × (starts.line + starts.counts.k < 9223372036854775808) × (length doubles.old ≤ 4096) }
    ensures { Text (after_load a (workspace heading.old doubles.old) starts.counts bytes.now starts) result out.old out.new }
{
    match a {
        Ok(()) => theta_text::put_theta(bytes, starts, heading, doubles, out),
        Err(r) => refusal_text::put_refusal(out, r.numbers()),
    }
}

// A sheet that 1 to 9 do not refuse, on a heading and 4,096 doubles, all zero.
fn put_sheet(bytes: &[u8], starts: Starts, out: &mut [u8; MOST_BYTES]) -> usize
    requires { (sheet : Sheet) × (read_sheet bytes.now ≡ accepted sheet starts) × (fault_number sheet ≡ 0) }
    ensures { Text (after_read (read_sheet bytes.now) bytes.now) result out.old out.new }
{
    let mut h = [0u32; parts::HEADING_LENGTH];
    let mut w = [0f64; 4096];
    let a = load::load_sheet(bytes, starts, &mut h, &mut w);
    put_loaded(a, bytes, starts, &mut h, &mut w, out)
}

// The whole job of the program: an input's bytes to an output's, which stand in the first n bytes of out. No output has more than 131,072.
pub fn factor(input: &[u8], out: &mut [u8]) -> usize
    ensures { Written input.now out.old result out.new }
{
    let Some(out) = out.first_chunk_mut::<MOST_BYTES>() else {
        return 0;
    };
    if 32768 < input.len() {
        return refusal_text::put_refusal(out, Refusal::WorkspaceTooShort.numbers());
    }
    match sheet_checks::read_and_check_prefix(input) {
        Ok(starts) => put_sheet(input, starts, out),
        Err(r) => refusal_text::put_refusal(out, Numbers::new(r.number, r.line, 0)),
    }
}
