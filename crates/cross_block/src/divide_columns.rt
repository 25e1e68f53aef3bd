// T by a diagonal factor (document 01, Record 4), on the whole list of doubles: rows of cross blocks and fixed rows alike.
ghost use Rattle.std.specs.Prelude.{◌≡◌, length};
ghost use Rattle.storage.specs.Placed.{as_diagonal};
ghost use Rattle.cross_block.specs.Blocks.{ByFactor, divided_columns};

use block_runs::runs;
use storage::Block;

// T by the diagonal f: each column of the dense block t divided by its pivot. The block is lent as the part that starts at its own offset.
pub fn divide_columns(doubles: &mut [f64], t: Block, f: Block)
    requires { ByFactor (length doubles.old) as_diagonal t f }
    ensures { doubles.new ≡ divided_columns t f doubles.old }
{
    let mut to = t.at;
    for c in 0..t.cols {
        let p = doubles[f.at + c];
        runs::change(doubles, t.at, to, t.rows, |_, x| x / p);
        to += t.rows;
    }
}
