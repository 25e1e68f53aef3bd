// How many doubles a block takes, and whether blocks lie within a list and apart: what the kernels require, tested.
ghost use Rattle.std.specs.Prelude.{◌≡◌, false, ◌+◌, ◌*◌, ◌≤◌, length};
ghost use Rattle.storage.specs.Shape.{packed, columns, size_of};
ghost use Rattle.block_runs.specs.blocks.Blocks.{RowsBelow};
ghost use Rattle.kernel_tests.specs.kernel_sizes.Sizes.{Clear};

// The rows that a packed block has at most, and another block where a kernel keeps a double for each of its rows.
pub const ROWS: usize = 316;

// Of a dense block by columns.
pub fn columns_size(rows: usize, cols: usize) -> usize
    requires { (rows ≤ 65535) × (cols ≤ 65535) }
    ensures { (result ≡ size_of (columns rows cols)) × (result ≤ 65535 * 65535) }
{
    rows * cols
}

// Of a packed triangle.
pub fn packed_size(n: usize) -> usize
    requires { n ≤ 65535 }
    ensures { (result ≡ size_of (packed n)) × (result ≤ 65535 * 65535) }
{
    n * (n + 1) / 2
}

// Whether a packed triangle of n rows from off on has too many rows, or lies beyond a list of len.
pub fn no_packed(len: usize, off: usize, n: usize) -> bool
    requires { (off ≤ 65535) × (n ≤ 65535) }
    ensures { result ≡ false → (n ≤ 316) × (off + size_of (packed n) ≤ len) }
{
    n > ROWS || off + packed_size(n) > len
}

// Whether n doubles from off on and m from a on meet, or one of them lies beyond a list of len.
pub fn clash(len: usize, off: usize, n: usize, a: usize, m: usize) -> bool
    requires { (off ≤ 65535) × (n ≤ 65535 * 65535) × (a ≤ 65535) × (m ≤ 65535 * 65535) }
    ensures { result ≡ false → Clear len off n a m }
{
    off + n > len || a + m > len || (off + n > a && a + m > off)
}

// Whether any of the n row numbers of the heading from first on is missing, or not below m.
pub fn bad_rows(heading: &[u32], first: usize, n: usize, m: usize) -> bool
    requires { (first ≤ 65535) × (n ≤ 65535) }
    ensures { result ≡ false → (first + n ≤ length heading.now) × RowsBelow heading.now first n m }
{
    first + n > heading.len()
        || heading[first..first + n]
            .iter()
            .any(|row| *row as usize >= m)
}
