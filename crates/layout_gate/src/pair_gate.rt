// The verdict on a pair of blocks (document 01, Record 2; the Rust's `cross_submatrix_fits_blocked_gate`).
ghost use Rattle.std.specs.Prelude.{◌≡◌, ◌<◌, ◌≤◌};
ghost use Rattle.layout.specs.Gate.{thin, pair_of};

use layout::{GateRefusal, Storage};

// Whether at most 0.35 of the cells are entries.
fn is_thin(entries: u64, cells: u64) -> bool
    requires { (entries ≤ 65535) × (cells < 4294967296) }
    ensures { result ≡ thin entries cells }
{
    (entries as f64) / (cells as f64) <= 0.35
}

// What the gate says of a pair of rows × cols cells among k blocks.
pub fn pair_of(
    k: u64,
    rows: u64,
    cols: u64,
    one_each: bool,
    entries: u64,
) -> Result<Storage, GateRefusal>
    requires { (rows ≤ 65535) × (cols ≤ 65535) × (entries ≤ 65535) }
    ensures { result ≡ pair_of k rows cols one_each entries }
{
    let cells = rows * cols;
    if cells <= 100000 {
        return Ok(Storage::Dense);
    }
    if 2 < k {
        return Err(GateRefusal::MultiblockFill);
    }
    if one_each {
        if is_thin(entries, cells) {
            return Ok(Storage::Sparse);
        }
    }
    Err(GateRefusal::CrossGate)
}
