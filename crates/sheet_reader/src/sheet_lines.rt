// Reads the lines of a sheet after its size line, in their sequence (document 01, Record 1).
ghost use Rattle.std.specs.Prelude.{◌≡◌, ◌≤◌, length};
ghost use Rattle.sheet.specs.Run.{cursor_at};
ghost use Rattle.sheet.specs.Sheet.{read_lines};
ghost use Rattle.sheet.specs.Answer.{reading_of};
ghost use Rattle.sheet_reader.specs.sheet_lines.Lines.{Small};

use crate::line_groups;
use sheet::{Counts, LineStart, SheetRefusal, Starts};

// The lines after the size line, in their sequence.
pub fn lines(bytes: &[u8], z: Counts, from: LineStart) -> Result<Starts, SheetRefusal>
    requires { (length bytes.now ≤ 16777216) × (from.line ≡ 2) × Small z }
    ensures { result ≡ reading_of (read_lines bytes.now z (cursor_at from)) }
{
    let zz = line_groups::blocks(bytes, z.k, from)?;
    let zx = line_groups::entries(bytes, z.q, zz)?;
    let zy = line_groups::words(bytes, b"zx\t", 2, z.p, 0, z.q, zx)?;
    let xx = line_groups::words(bytes, b"zy\t", 1, 1, 0, z.q, zy)?;
    let xy = line_groups::words(bytes, b"xx\t", 2, 1, 1, z.p, xx)?;
    let yy = line_groups::words(bytes, b"xy\t", 1, 1, 0, z.p, xy)?;
    let end = line_groups::words(bytes, b"yy\t", 0, 1, 0, 1, yy)?;
    Ok(Starts {
        counts: z,
        block: from.at,
        zz: zz.at,
        zx: zx.at,
        zy: zy.at,
        xx: xx.at,
        xy: xy.at,
        yy: yy.at,
        end: end.at,
        line: end.line,
    })
}
