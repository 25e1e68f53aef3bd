// Writes the lines of all pivots of a factor (document 01, "Worked sheets"), by block, then row, into lent bytes. The lines are defined in the crate
// factor_output, specs/Program.antt.
ghost use Rattle.std.specs.Prelude.{◌≡◌, true, suc, ◌+◌, ◌*◌, ◌≤◌, length};
ghost use Rattle.heading_format.specs.Heading.{layout_of, valid_heading};
ghost use Rattle.workspace.specs.Answers.{workspace};
ghost use Rattle.factor_output.specs.Program.{pivot_lines};
ghost use Rattle.text_output.specs.Written.{Put};
ghost use Rattle.block_places.specs.block_kinds.Rows.{rows_of};
ghost use Rattle.factor_text.specs.pivot_lines.Lines.{row_lines, block_lines};
ghost use Rattle.heading_format.specs.Fits.{Room};

use crate::MOST_BYTES;
use block_places::block_kinds;
use layout::Layout;
use text_output::print_lines;
use views::pivot_places;

// The pivots of block j. A line of at most 4,096 rows has at most 31 bytes, and the last is written where there is room for any.
fn put_rows(
    layout: Layout,
    doubles: &[f64],
    j: u64,
    out: &mut [u8; MOST_BYTES],
    from: usize,
) -> usize
    requires { Room layout (length doubles.now) × (j ≤ layout.k) × (rows_of layout j ≤ 4096) × (from + 31 * rows_of layout j + 34 ≤ length out.old) }
    ensures { Put from (row_lines layout doubles.now j (rows_of layout j)) out.old result out.new }
{
    let n = block_kinds::rows_of(layout, j);
    let mut at = from;
    for r in 0..n as u64 {
        let x = pivot_places::read_pivot(layout, doubles, j, r);
        at = print_lines::put_pivot(out, at, j, r, x);
    }
    at
}

// The pivots of every block.
fn put_blocks(layout: Layout, doubles: &[f64], out: &mut [u8; MOST_BYTES]) -> usize
    requires { Room layout (length doubles.now) × (length doubles.now ≤ 4096) }
    ensures { (result ≤ 131072) × Put 0 (block_lines layout doubles.now (suc layout.k)) out.old result out.new }
{
    let mut at: usize = 0;
    for j in 0..layout.k + 1 {
        at = put_rows(layout, doubles, j, out, at);
    }
    at
}

// The pivots of a workspace of at most 4,096 doubles, from the first byte on.
pub fn put_pivots(heading: &[u32], doubles: &[f64], out: &mut [u8; MOST_BYTES]) -> usize
    requires { (valid_heading heading.now (length doubles.now) ≡ true) × (length doubles.now ≤ 4096) }
    ensures { (result ≤ 131072) × Put 0 (pivot_lines (workspace heading.now doubles.now) (suc (layout_of heading.now).k)) out.old result out.new }
{
    put_blocks(heading::layout(heading), doubles, out)
}
