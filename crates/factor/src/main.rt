// The program `factor` (document 01, "Worked sheets"): reads a sheet and its theta part from standard input and prints the pivots, or a refusal. All
// that it does with the bytes is in the crate factor_text.
#![tactic(auto)]

ghost use Rattle.std.specs.Prelude.{◌≡◌, ◌≤◌, length, IfOk};

use std::io;
use std::io::{Read, Write};

// Reads until the input is full or nothing more comes, and says how many bytes it read. An error is one of a read; the input is as long as it was.
fn read_full(source: &mut impl Read, input: &mut [u8]) -> io::Result<usize>
    ensures within { IfOk result (λ n. n ≤ length input.old) }
    ensures kept { length input.new ≡ length input.old }
{
    let mut n = 0;
    while n < input.len() {
        let more = source.read(&mut input[n..])?;
        if more == 0 {
            return Ok(n);
        }
        n += more;
    }
    Ok(n)
}

// It reads one byte more than an input may have, so that one beyond that is seen.
fn main(rt: HostRuntime) -> io::Result<()> {
    let mut input = [0u8; 32769];
    let mut out = [0u8; 131072];
    let n = read_full(&mut rt.reader(), &mut input)?;
    let m = factor_text::factor(&input[..n], &mut out);
    io::writer(&rt).write_all(&out[..m])
}
