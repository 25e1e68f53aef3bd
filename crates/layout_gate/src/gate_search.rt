// The first pair that the gate refuses (document 01, Record 2, numbers 10 and 11; the Rust's `blocked_gate_failure`): the search ends there.
ghost use Rattle.std.specs.Prelude.{◌≡◌, ℕ, ◌<◌, ◌≤◌};
ghost use Rattle.sheet.specs.Sheet.{Sheet};
ghost use Rattle.layout.specs.Gate.{gate_number};
ghost use Rattle.layout.specs.Shapes.{levels, pairs};
ghost use Rattle.refusal.specs.Numbers.{refusal};
ghost use Rattle.workspace.specs.Loaded.{first_refused_pair, layout_of_sheet};
ghost use Rattle.layout_gate.specs.gate_search.Search.{verdict};

use crate::pair_gate;
use layout::{GateRefusal, Layout, Storage};
use refusal::Refusal;

// What the gate says of pair (j, jj).
fn verdict(layout: Layout, j: u64, jj: u64) -> Result<Storage, GateRefusal>
    requires { (j < 8) × (jj < 8) × ((i : ℕ) → i < 8 → levels layout i ≤ 65535) }
    ensures { result ≡ verdict layout j jj }
{
    let rows = layout.m[j as usize];
    let cols = layout.m[jj as usize];
    pair_gate::pair_of(layout.k, rows, cols, layout.diagonal, cols)
}

// The refusal of pair (j, jj), by why the gate refuses it.
fn refusal(refused: GateRefusal, j: u64, jj: u64) -> Refusal
    ensures { result ≡ refusal (gate_number refused) j jj }
{
    match refused {
        GateRefusal::MultiblockFill => Refusal::MultiblockFill { j, jj },
        GateRefusal::CrossGate => Refusal::CrossGate { j, jj },
    }
}

// The first pair that the gate refuses, in turn j = 1.., jj = 0..j-1: its number 10 or 11, j and jj. The layout of a sheet says all that the gate asks.
pub fn first_refused_pair(layout: Layout) -> Option<Refusal>
    requires { (layout.k ≤ 8) × ((i : ℕ) → i < 8 → levels layout i ≤ 65535) }
    ensures { (sheet : Sheet) → layout ≡ layout_of_sheet sheet → result ≡ first_refused_pair sheet layout (pairs layout.k) }
{
    let mut found = None;
    'pairs: for j in 1..layout.k {
        for jj in 0..j {
            if let Err(refused) = verdict(layout, j, jj) {
                found = Some(refusal(refused, j, jj));
                break 'pairs;
            }
        }
    }
    found
}
