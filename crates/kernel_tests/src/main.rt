// Test program: runs the kernels on a list of cases and prints what each answers and leaves. The file stdout has what they must; tools/kernel_list.py
// makes both, and says what the words of a case are.
#![tactic(auto)]

mod answer;
mod case;
mod cross;
mod diagonals;
mod factors;
mod kernel;
mod kernel_sizes;
mod lower;
mod products;
mod runs;
mod vectors;

ghost use Rattle.std.specs.Prelude.{◌≤◌};

use answer::OUT_OF_FORM;
use case::Case;
use float_bits::words;
use kernel::Kernel;
use std::io::{Read, Write};
use std::{array, io};

// How many words a case has before its lists, and how many doubles, row numbers and words these have at most.
const HEAD: usize = 19;

const DOUBLES: usize = 8704;

const ROWS: usize = 1024;

const WORDS: usize = 2 * DOUBLES + ROWS;

// The next case's words. Whether there is one.
fn read_case(list: &mut impl Read, m: &mut [u64; 65536]) -> io::Result<bool> {
    let Some(first) = test_words::next_word(list)? else {
        return Ok(false);
    };
    m[0] = first;
    test_words::read_words(list, &mut m[1..HEAD])?;
    let end = HEAD + size_at(m, 18, WORDS);
    test_words::read_words(list, &mut m[HEAD..end])?;
    Ok(true)
}

// The word at i as a size, and `most` where it is larger.
fn size_at(m: &[u64; 65536], i: usize, most: usize) -> usize
    requires { i ≤ 65535 }
    ensures { result ≤ most }
{
    test_words::size(m[i], most)
}

// A case of this kernel with its arguments.
fn case_of(m: &[u64; 65536], kernel: Kernel) -> Case {
    Case {
        kernel,
        p0: size_at(m, 2, 65535),
        p1: size_at(m, 3, 65535),
        p2: size_at(m, 4, 65535),
        p3: size_at(m, 5, 65535),
        p4: size_at(m, 6, 65535),
        p5: size_at(m, 7, 65535),
        p6: size_at(m, 8, 65535),
        s: words::double(m[9]),
        t: words::double(m[10]),
    }
}

// The doubles of the words from `from` on.
fn doubles_of(m: &[u64; 65536], from: usize) -> [f64; 8704]
    requires { from ≤ 50000 }
{
    array::from_fn(|i| words::double(m[from + i]))
}

// The row numbers of the words from `from` on.
fn rows(m: &[u64; 65536], from: usize) -> [u32; 1024]
    requires { from ≤ 50000 }
{
    array::from_fn(|i| (m[from + i] % 0x100000000) as u32)
}

// A line with the case's number, the kernel's, and the answer.
fn print_answer(out: &mut impl Write, m: &[u64; 65536], answer: u64) -> io::Result<()> {
    test_words::print_number(out, m[0])?;
    test_words::print_number(out, m[1])?;
    if answer == OUT_OF_FORM {
        return writeln!(out, " out of form");
    }
    test_words::print_word(out, answer)
}

// The first n of the doubles, but those that the kernel may leave as it likes.
fn print_list(
    out: &mut impl Write,
    m: &[u64; 65536],
    doubles: &[f64; 8704],
    n: usize,
) -> io::Result<()>
    requires { n ≤ 8704 }
{
    let free = size_at(m, 13, DOUBLES);
    let end = free + size_at(m, 14, DOUBLES);
    for (i, x) in doubles[..n].iter().enumerate() {
        if !(free..end).contains(&i) {
            test_words::print_word(out, words::word_of(*x))?;
        }
    }
    Ok(())
}

// What the case's kernel answers on `doubles`, which begins with what it is lent, and on lists v and h of the case's own lengths.
fn answered(m: &[u64; 65536], doubles: &mut [f64], from: usize) -> u64
    requires { from ≤ 9000 }
{
    let Ok(kernel) = Kernel::try_from(m[1]) else {
        return OUT_OF_FORM;
    };
    let n = size_at(m, 16, DOUBLES);
    let v = doubles_of(m, from);
    let h = rows(m, from + n);
    let a = size_at(m, 12, n);
    let r = size_at(m, 17, ROWS);
    runs::run(case_of(m, kernel), doubles, &v[a..n], &h[..r])
}

fn run_case(out: &mut impl Write, m: &[u64; 65536]) -> io::Result<()> {
    let n = size_at(m, 15, DOUBLES);
    let a = size_at(m, 11, n);
    let mut w = doubles_of(m, HEAD);
    let answer = answered(m, &mut w[a..n], HEAD + n);
    print_answer(out, m, answer)?;
    print_list(out, m, &w, n)
}

// A proved loop has to end, and nothing says that a list does, so it takes a million cases at most.
fn main(rt: HostRuntime) -> io::Result<()> {
    let mut list = rt.reader();
    let mut out = io::writer(&rt);
    let mut m = [0u64; 65536];
    for _ in 0..1000000u64 {
        if !read_case(&mut list, &mut m)? {
            break;
        }
        run_case(&mut out, &m)?;
    }
    Ok(())
}
