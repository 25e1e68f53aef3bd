// What a call answers, as the program prints it.
use crate::call_list::call::Kind;
use float_bits::words;
use profile::{Deviance, Solution};
use refusal::{Numbers, Refusal};
use std::io;
use std::io::Write;
use test_words::{print_number, print_word};

// How the answer of any call stands.
#[derive(Clone, Copy)]
pub enum Reported {
    Accepted,
    Refused(Refusal),
    Deviance(Deviance),
    Solved(Solution),
}

impl From<Result<(), Refusal>> for Reported {
    fn from(a: Result<(), Refusal>) -> Reported {
        match a {
            Ok(()) => Reported::Accepted,
            Err(r) => Reported::Refused(r),
        }
    }
}

impl From<Result<Deviance, Refusal>> for Reported {
    fn from(a: Result<Deviance, Refusal>) -> Reported {
        match a {
            Ok(d) => Reported::Deviance(d),
            Err(r) => Reported::Refused(r),
        }
    }
}

impl From<Result<Solution, Refusal>> for Reported {
    fn from(s: Result<Solution, Refusal>) -> Reported {
        match s {
            Ok(x) => Reported::Solved(x),
            Err(r) => Reported::Refused(r),
        }
    }
}

// A line: the call's kind, how the answer stands, the refusal's number and places, the value's word.
fn print_line(
    out: &mut impl Write,
    kind: Kind,
    how: u64,
    places: [u64; 3],
    value: f64,
) -> io::Result<()> {
    let kind = kind as u64;
    write!(out, "{kind}")?;
    print_number(out, how)?;
    for x in places {
        print_number(out, x)?;
    }
    print_word(out, words::word_of(value))
}

// The line of an answer: it stands at 0 accepted, 1 refused, 2 a value, 3 a refused pivot, which is printed as number 26, 4 no scale, 5 a solution,
// which has the deviance there and a line with sigma2 behind.
pub fn print(out: &mut impl Write, kind: Kind, answer: Reported) -> io::Result<()> {
    match answer {
        Reported::Accepted => print_line(out, kind, 0, [0; 3], 0.0),
        Reported::Refused(r) => {
            let Numbers {
                number,
                first,
                second,
            } = r.numbers();
            print_line(out, kind, 1, [number, first, second], 0.0)
        },
        Reported::Deviance(Deviance::Value(x)) => print_line(out, kind, 2, [0; 3], x),
        Reported::Deviance(Deviance::Pivot(block, row)) => {
            print_line(out, kind, 3, [26, block, row], 0.0)
        }
        Reported::Deviance(Deviance::NoScale) => print_line(out, kind, 4, [0; 3], 0.0),
        Reported::Solved(x) => {
            print_line(out, kind, 5, [0; 3], x.deviance)?;
            print_word(out, words::word_of(x.sigma2))
        }
    }
}
