// A call as the list has it: ten words and a body.
ghost use Rattle.std.specs.Prelude.{◌≤◌};

use float_bits::words;
use std::io;
use std::io::Read;
use test_words::{next_word, read_word, read_words, size};
use update::StepName;

// Room for a body's words.
pub const ROOM: usize = 40960;

// What is called, by its word in the list. `Alter` is no call: a stranger to the calls writes into memory.
#[derive(Clone, Copy)]
pub enum Kind {
    Alter,
    Begin,
    S,
    C,
    T,
    Response,
    Profile,
    Deviance,
    Load,
    Solve,
}

// A word that names no kind, which ends a part of the list.
#[derive(Clone, Copy)]
pub struct NoKind;

impl TryFrom<u64> for Kind {
    type Error = NoKind;

    fn try_from(word: u64) -> Result<Kind, NoKind> {
        match word {
            0 => Ok(Kind::Alter),
            1 => Ok(Kind::Begin),
            2 => Ok(Kind::S),
            3 => Ok(Kind::C),
            4 => Ok(Kind::T),
            5 => Ok(Kind::Response),
            6 => Ok(Kind::Profile),
            7 => Ok(Kind::Deviance),
            8 => Ok(Kind::Load),
            9 => Ok(Kind::Solve),
            _ => Err(NoKind),
        }
    }
}

#[derive(Drop)]
pub struct Call {
    pub kind: Kind,
    // The numbers of the step's name; the first is 1 for REML, and the length of the sheet for load.
    pub name: [u64; 3],
    // The lengths of the lists of doubles, which the body has one behind the other.
    pub lengths: [u64; 3],
    // How many numbers and doubles are lent.
    pub numbers: u64,
    pub doubles: u64,
    // How many words follow. What is in the body behind them is from the calls before.
    pub words: u64,
    pub body: [u64; ROOM],
}

impl Call {
    pub fn new(kind: Kind) -> Call {
        Call {
            kind,
            name: [0; 3],
            lengths: [0; 3],
            numbers: 0,
            doubles: 0,
            words: 0,
            body: [0; ROOM],
        }
    }

    // Reads the next call of a part of the list. Whether there is one more.
    pub fn read(&mut self, list: &mut impl Read) -> io::Result<bool> {
        let Some(word) = next_word(list)? else {
            return Ok(false);
        };
        let Ok(kind) = Kind::try_from(word) else {
            return Ok(false);
        };
        self.kind = kind;
        read_words(list, &mut self.name)?;
        read_words(list, &mut self.lengths)?;
        self.numbers = read_word(list)?;
        self.doubles = read_word(list)?;
        self.words = read_word(list)?;
        let count = self.count();
        read_words(list, &mut self.body[..count])?;
        Ok(true)
    }

    // How many words the body has.
    pub fn count(&self) -> usize
        ensures { result ≤ 40960 }
    {
        size(self.words, ROOM)
    }

    pub fn is_reml(&self) -> bool {
        self.name[0] == 1
    }

    // The step that the call names; a kind that is no step names a T.
    pub fn step(&self) -> StepName {
        let [i, j, h] = self.name;
        match self.kind {
            Kind::S => StepName::S(i, j, h),
            Kind::C => StepName::C(i),
            _ => StepName::T(i, j),
        }
    }

    // Fills l with the doubles of the lists, and +0.0 behind.
    pub fn fill_doubles(&self, l: &mut [f64; ROOM]) {
        let count = self.count();
        for (x, word) in l.iter_mut().zip(&self.body[..count]) {
            *x = words::double(*word);
        }
    }

    // Fills s with the bytes of a sheet, eight to a word, the highest first.
    pub fn fill_bytes(&self, s: &mut [u8; 131072]) {
        for i in 0..s.len() / 8 {
            s[8 * i..8 * i + 8].copy_from_slice(&self.body[i].to_be_bytes());
        }
    }
}
