// Memory, numbered through: the 1,024 numbers of a heading, then 8,192 doubles, then the 4,096 of a result list.
ghost use Rattle.std.specs.Prelude.{◌<◌, ◌≤◌};

use crate::call_list::call::Call;
use float_bits::words;
use std::io;
use std::io::Write;
use test_words::{print_word, size};

const NUMBERS: usize = 1024;

const DOUBLES: usize = 8192;

const RESULTS: usize = 4096;

// Where the result list begins, and how many places there are.
pub const FIRST_RESULT: usize = NUMBERS + DOUBLES;

pub const PLACES: usize = FIRST_RESULT + RESULTS;

#[derive(Drop)]
pub struct Memory {
    pub heading: [u32; NUMBERS],
    pub doubles: [f64; DOUBLES],
    pub results: [f64; RESULTS],
    // Each place's word as it was before a call.
    before: [u64; PLACES],
}

impl Memory {
    pub fn new() -> Memory {
        Memory {
            heading: [0; NUMBERS],
            doubles: [0.0; DOUBLES],
            results: [0.0; RESULTS],
            before: [0; PLACES],
        }
    }

    // The word at a place.
    fn word(&self, i: usize) -> u64
        requires { i < 13312 }
    {
        if i < NUMBERS {
            return u64::from(self.heading[i]);
        }
        if i < FIRST_RESULT {
            return words::word_of(self.doubles[i - NUMBERS]);
        }
        words::word_of(self.results[i - FIRST_RESULT])
    }

    // Puts a word into number or double i, if there is one.
    fn put(&mut self, i: usize, x: u64) {
        if i < NUMBERS {
            self.heading[i] = (x % 0x100000000) as u32;
        } else if i < FIRST_RESULT {
            self.doubles[i - NUMBERS] = words::double(x);
        }
    }

    // Memory that no call has written.
    pub fn reset(&mut self) {
        let number: u32 = 0xa5a5a5a5;
        let double: u64 = 0x4045abcdef012345;
        self.heading.fill(number);
        self.doubles.fill(words::double(double));
        self.results.fill(words::double(double));
        self.before[..NUMBERS].fill(u64::from(number));
        self.before[NUMBERS..].fill(double);
    }

    // What a stranger to the calls writes: places and words by turns, as the body has them.
    pub fn alter(&mut self, call: &Call) {
        for i in 0..(call.count() + 1) / 2 {
            self.put(size(call.body[2 * i], FIRST_RESULT), call.body[2 * i + 1]);
        }
    }

    // A line for each place from one to before another whose word is other than before: its place and its word.
    pub fn print_changes(&mut self, out: &mut impl Write, from: usize, to: usize) -> io::Result<()>
        requires { to ≤ 13312 }
    {
        for i in from..to {
            let x = self.word(i);
            if self.before[i] != x {
                write!(out, "{i}")?;
                print_word(out, x)?;
                self.before[i] = x;
            }
        }
        Ok(())
    }
}
