// A workspace of a sparse pair of 3 by 33,334 cells that follows a rule, and the sum over its words.
use float_bits::words;

// Levels of the larger block, and with the other's.
const LEVELS: usize = 33334;

const ROWS: usize = 33337;

// How many doubles are loaded.
const LOADED: usize = 133348;

// The numbers of a heading that are not 0: n, p, q, k; levels and sheet index of the blocks; sparse, diagonal; steps left; and the rows of
// the entries.
fn number(i: usize) -> u32 {
    if i >= 128 {
        return (i % 11 % 3) as u32;
    }
    match i {
        0 => 40000,
        1 => 1,
        2 => 33337,
        3 => 2,
        4 => 33334,
        5 => 3,
        13 => 1,
        20 => 1,
        21 => 1,
        23 => 10,
        _ => 0,
    }
}

// A fraction that goes with i, from 0 to 16.
fn fraction(i: usize) -> f64 {
    (i % 1009 * 37 % 1009) as f64 / 64.0
}

// Double i as load leaves it, +0.0 behind the loaded ones. Of these, diagonals and entries above 0, a large diagonal of the smaller block, fixed rows of both signs, a large last triangle.
fn double(i: usize) -> f64 {
    if i >= LOADED {
        return 0.0;
    }
    if (i >= LEVELS) & (i < ROWS) {
        return 1000000.0;
    }
    if i < ROWS + LEVELS {
        return 1.0 + fraction(i);
    }
    match i {
        133345 => 10000000.0,
        133346 => 5.0,
        133347 => 10000000.0,
        _ => fraction(i) - 8.0,
    }
}

// Fills the heading.
pub fn fill_heading(heading: &mut [u32]) {
    for (i, x) in heading.iter_mut().enumerate() {
        *x = number(i);
    }
}

// Fills the doubles.
pub fn fill_doubles(doubles: &mut [f64]) {
    for (i, x) in doubles.iter_mut().enumerate() {
        *x = double(i);
    }
}

// A sum with one more number below 2^32. 31 is odd, so lists that differ in one number have different sums.
fn more(sum: u64, x: u64) -> u64 {
    sum % 0x0400000000000000 * 31 + x % 0x100000000
}

// The sum over heading and doubles: each number, then the upper half of each double's word and the lower.
pub fn sum_words(heading: &[u32], doubles: &[f64]) -> u64 {
    let numbers = heading.iter().fold(0, |sum, x| more(sum, u64::from(*x)));
    doubles.iter().fold(numbers, |sum, x| {
        let word = words::word_of(*x);
        more(more(sum, word >> 32), word)
    })
}
