// Whether the blocks of a heading are sorted as Record 2 says (document 01, number 20).
ghost use Rattle.std.specs.Prelude.{◌≡◌, ℕ, ◌<◌, ◌≤◌, eqb, get_or, set, take};
ghost use Rattle.layout.specs.Blocks.{sorted};
ghost use Rattle.layout.specs.Shapes.{levels};
ghost use Rattle.heading_format.specs.Heading.{every, same, sheet_levels};

use layout::Layout;
use layout_gate::block_order;

// The levels of a sorted block.
pub fn level(layout: &Layout, j: u64) -> u64
    requires { j < 8 }
    ensures { result ≡ levels layout.now j }
{
    layout.m[j as usize]
}

// The sheet index of a sorted block.
fn sheet_index(layout: Layout, j: u64) -> u64
    requires { j < 8 }
    ensures { result ≡ get_or layout.order j 0 }
{
    layout.order[j as usize]
}

// A number put into a list, where it has the place.
fn put(list: &mut [u64; 8], i: u64, v: u64)
    ensures { list.new ≡ set list.old i v }
{
    if i < 8 {
        list[i as usize] = v;
    }
}

// The levels of the blocks by sheet index.
fn by_sheet(layout: Layout) -> [u64; 8]
    requires { layout.k ≤ 8 }
    ensures { (i : ℕ) → i < 8 → get_or result i 0 ≡ sheet_levels layout layout.k i }
{
    let k = layout.k;
    let mut r = [0u64; 8];
    for s in 0..k {
        put(&mut r, sheet_index(layout, s), level(&layout, s));
    }
    r
}

// Whether the first k numbers of two lists are the same.
fn agree(a: [u64; 8], b: [u64; 8], k: u64) -> bool
    requires { k ≤ 8 }
    ensures { result ≡ every (λ i. eqb (get_or a i 0) (get_or b i 0)) k }
{
    (0..k).all(|j| a[j as usize] == b[j as usize])
}

// Whether the blocks stand in sorted order.
pub fn is_sorted(layout: Layout) -> bool
    requires { layout.k ≤ 8 }
    ensures { result ≡ same (take layout.k layout.order) (sorted (sheet_levels layout layout.k) layout.k) }
{
    let m = by_sheet(layout);
    let s = block_order::sorted(m, layout.k);
    agree(layout.order, s, layout.k)
}
