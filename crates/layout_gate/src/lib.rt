// The layout that a sheet gives, and refusals 10 and 11 (document 01, Record 2; the Rust's `blocked_gate_failure`): blocks sorted, entries of a
// column counted, pairs judged in turn. Defined in the crates layout (specs/Gate.antt, a pair's verdict) and workspace (specs/Loaded.antt, the whole
// sheet's).
#![tactic(auto)]

pub mod block_order;
mod column_entries;
pub mod gate_search;
pub mod pair_gate;

ghost use Rattle.std.specs.Prelude.{◌≡◌, ◌&&◌, ℕ, ◌<◌, ◌≤◌, eqb, get_or};
ghost use Rattle.sheet.specs.Sheet.{Sheet, accepted, read_sheet};
ghost use Rattle.sheet.specs.Fault.{fault_number};
ghost use Rattle.layout.specs.Blocks.{sorted, each, padded};
ghost use Rattle.layout.specs.Gate.{pair_of};
ghost use Rattle.heading_format.specs.Heading.{is_sparse};
ghost use Rattle.sheet_checks.specs.levels.Held.{Holds};
ghost use Rattle.workspace.specs.Loaded.{layout_of_sheet};
ghost use Rattle.layout_gate.specs.Ordered.{Ordered};

use layout::{Layout, Storage};
use sheet::Starts;
use sheet_checks::levels;

// The levels of the sorted blocks.
fn sorted_levels(m: [u64; 8], order: [u64; 8], k: u64) -> [u64; 8]
    requires { (k ≤ 8) × (order ≡ padded 8 (sorted (λ i. get_or m i 0) k)) }
    ensures { result ≡ padded 8 (each (λ i. get_or m i 0) (sorted (λ i. get_or m i 0) k)) }
{
    let mut r: [u64; 8] = [0; 8];
    for i in 0..k as usize {
        r[i] = m[order[i] as usize];
    }
    r
}

// With k = 2, whether each level of the larger block has exactly one entry with the other: block 1 is then diagonal.
fn is_diagonal(bytes: &[u8], starts: Starts, m: [u64; 8], order: [u64; 8]) -> bool
    requires { Holds bytes.now starts × Ordered bytes.now starts m order }
    ensures { (sheet : Sheet) → read_sheet bytes.now ≡ accepted sheet starts → result ≡ (layout_of_sheet sheet).diagonal }
{
    if starts.counts.k != 2 {
        return false;
    }
    let a = order[0];
    let b = order[1];
    column_entries::one_each(
        bytes,
        starts,
        levels::start(m, a),
        m[a as usize],
        levels::start(m, b),
        m[b as usize],
    )
}

// With k = 2, whether the one pair is stored sparse.
fn one_sparse(k: u64, m: [u64; 8], diagonal: bool) -> bool
    requires { (i : ℕ) → i < 8 → get_or m i 0 ≤ 65535 }
    ensures { result ≡ eqb k 2 && is_sparse (pair_of k (get_or m 1 0) (get_or m 0 0) diagonal (get_or m 0 0)) }
{
    if k != 2 {
        return false;
    }
    match pair_gate::pair_of(k, m[1], m[0], diagonal, m[0]) {
        Ok(Storage::Dense) => false,
        Ok(Storage::Sparse) => true,
        Err(_) => false,
    }
}

// The layout of a sheet that 5 to 9 do not refuse.
pub fn layout_of_sheet(bytes: &[u8], starts: Starts) -> Layout
    requires { (sheet : Sheet) × (read_sheet bytes.now ≡ accepted sheet starts) × (fault_number sheet ≡ 0) }
    ensures { (sheet : Sheet) → read_sheet bytes.now ≡ accepted sheet starts → result ≡ layout_of_sheet sheet }
{
    let c = starts.counts;
    let m = levels::levels(bytes, starts);
    let order = block_order::sorted(m, c.k);
    let sizes = sorted_levels(m, order, c.k);
    let diagonal = is_diagonal(bytes, starts, m, order);
    let sparse = one_sparse(c.k, sizes, diagonal);
    Layout {
        n: c.n,
        p: c.p,
        q: c.q,
        k: c.k,
        m: sizes,
        order: order,
        sparse: sparse,
        diagonal: diagonal,
    }
}
