// The sheet of cross-products and its refusals 1 to 9 (document 01, Record 1), as definitions in specs/: fields, lines, runs of lines, faults; and
// the structs that say where lines stand in the bytes.
#![tactic(auto)]

// What stands at a position: a number or a word, and the position past the byte that ends it.
// Where nothing in form stands there, the value is 0 and next is 2^64 - 1, a position at which nothing stands. (An Option of a field and of a line
// was tried, and read a sheet 7 to 15 percent slower: with a position that is past every byte, reading on needs no test between two fields.)
#[derive(Clone, Copy)]
pub struct Field {
    pub value: u64,
    pub next: usize,
}

// A line of any tag but size: its numbers, two at most, and its word, 0 for what that tag has not; and the position past it, as in a field.
#[derive(Clone, Copy)]
pub struct Line {
    pub first: u64,
    pub second: u64,
    pub word: u64,
    pub next: usize,
}

// The numbers of the size line: readings, fixed effects, random rows, blocks, and 1 for intercepts only.
#[derive(Clone, Copy)]
pub struct Counts {
    pub n: u64,
    pub p: u64,
    pub q: u64,
    pub k: u64,
    pub flag: u64,
}

// The size line, and the position past it, as in a field.
#[derive(Clone, Copy)]
pub struct Size {
    pub counts: Counts,
    pub next: usize,
}

// Where the next line to be read starts: its position in the bytes, and its number.
#[derive(Clone, Copy)]
pub struct LineStart {
    pub at: usize,
    pub line: u64,
}

// Where the lines of a sheet start, tag by tag; and the position and the line's number just past the yy line.
#[derive(Clone, Copy)]
pub struct Starts {
    pub counts: Counts,
    pub block: usize,
    pub zz: usize,
    pub zx: usize,
    pub zy: usize,
    pub xx: usize,
    pub xy: usize,
    pub yy: usize,
    pub end: usize,
    pub line: u64,
}

// Why a sheet is refused: document 01 files refusals by number, 1 to 9 for a sheet. And its line; 0 where it names none.
#[derive(Clone, Copy)]
pub struct SheetRefusal {
    pub number: u64,
    pub line: u64,
}
