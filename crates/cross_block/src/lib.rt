// T and begin's scaling on a cross block or on fixed rows (document 01, Record 4; the Rust's `trisolve_*`), on the whole list of doubles: the
// target's cells are the rule's, every other double stays. At the root T by a packed factor; T by a diagonal is in divide_columns. Definitions in
// specs/Blocks.antt.
#![tactic(auto)]

pub mod divide_columns;
pub mod scaling;

ghost use Rattle.std.specs.Prelude.{◌≡◌, ◌+◌, ◌≤◌, ◌<◌, length};
ghost use Rattle.storage.specs.Shape.{columns, size_of};
ghost use Rattle.storage.specs.Placed.{as_triangle};
ghost use Rattle.cross_block.specs.Blocks.{ByFactor, solved_rows, solved_column};

use block_runs::{axpy_products, runs};
use storage::Block;

// Column c of the block t, from `to` on, solved with the columns before it and row c of the factor, which lies from `row` on.
// The block is lent as the part that starts at its own offset.
fn solve_column(doubles: &mut [f64], acc: &mut [f64], t: Block, c: usize, to: usize, row: usize)
    requires { (t.rows ≤ length acc.old) × (t.at ≤ to) × (to + t.rows ≤ length doubles.old) × (t.at + size_of (columns t.rows c) ≤ length doubles.old) × (row + c < length doubles.old) }
    ensures { doubles.new ≡ solved_column t c to row doubles.old }
{
    let n = t.rows;
    runs::copy(acc, 0, n, doubles, to);
    axpy_products::subtract_products(acc, n, doubles, t.at, n, doubles, row, 1, 0, c);
    let p = doubles[row + c];
    runs::change(doubles, t.at, to, n, |i, _| acc[i] / p);
}

// T by the packed factor f: forward substitution in each row of the dense block t, all rows side by side.
pub fn solve_rows(doubles: &mut [f64], t: Block, f: Block)
    requires { (t.rows ≤ 316) × ByFactor (length doubles.old) as_triangle t f }
    ensures { doubles.new ≡ solved_rows t f doubles.old }
{
    let mut acc = [0.0; 316];
    let mut to = t.at;
    let mut row = f.at;
    for c in 0..f.rows {
        solve_column(doubles, &mut acc, t, c, to, row);
        to += t.rows;
        row += c + 1;
    }
}
