// Test program: holds the square root and the logarithm to a list of test vectors (tools/number_list.py): a group, a word x, and the words between
// which the result must lie. A vector whose result does not is printed with it; at the end how many of each group agree.
#![tactic(auto)]

mod agreement;

use float_bits::words;
use std::io;
use std::io::{Read, Write};
use test_words::{print_number, print_word, read_word};

// The groups of the square root, then those of the logarithm.
const GROUPS: usize = 14;

#[derive(Clone, Copy)]
struct Vector {
    group: u64,
    x: u64,
    lower: u64,
    upper: u64,
}

// The function of a group.
fn result(group: u64, x: f64) -> f64 {
    if group < 7 {
        return square_root::sqrt(x);
    }
    logarithm::ln(x)
}

// A line: the vector's first three words and the result's word.
fn print_vector(out: &mut impl Write, v: Vector, r: f64) -> io::Result<()> {
    let group = v.group;
    write!(out, "{group}")?;
    print_number(out, v.x)?;
    print_number(out, v.lower)?;
    print_word(out, words::word_of(r))
}

// Whether the vector's result agrees. One that does not is printed.
fn holds(out: &mut impl Write, v: Vector) -> io::Result<bool> {
    let r = result(v.group, words::double(v.x));
    let agrees = agreement::agrees(v.lower, v.upper, r);
    if !agrees {
        print_vector(out, v, r)?;
    }
    Ok(agrees)
}

// The next vector, if there is one.
fn read_vector(list: &mut impl Read) -> io::Result<Option<Vector>> {
    let Some(group) = test_words::next_word(list)? else {
        return Ok(None);
    };
    let x = read_word(list)?;
    let lower = read_word(list)?;
    let upper = read_word(list)?;
    Ok(Some(Vector {
        group,
        x,
        lower,
        upper,
    }))
}

// A line for each group: its number and how many of its vectors agree.
fn print_groups(out: &mut impl Write, agreed: &[u64; GROUPS]) -> io::Result<()> {
    for (g, n) in agreed.iter().enumerate() {
        writeln!(out, "{g} {n}")?;
    }
    Ok(())
}

// A proved loop has to end, and nothing says that a file does, so it takes a million vectors at most.
fn main(rt: HostRuntime) -> io::Result<()> {
    let mut list = rt.reader();
    let mut out = io::writer(&rt);
    let mut agreed = [0u64; GROUPS];
    for _ in 0..1000000 {
        let Some(v) = read_vector(&mut list)? else {
            break;
        };
        if holds(&mut out, v)? {
            if let Some(n) = agreed.get_mut(v.group as usize) {
                *n = n.wrapping_add(1);
            }
        }
    }
    print_groups(&mut out, &agreed)
}
