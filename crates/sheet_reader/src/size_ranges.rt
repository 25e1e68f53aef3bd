// The ranges of the size line (document 01, Record 1).
ghost use Rattle.std.specs.Prelude.{◌≡◌};
ghost use Rattle.sheet.specs.Sheet.{counts_within};

use crate::line_verdict;
use sheet::Counts;

// The ranges of the size line.
pub fn counts_within(z: Counts) -> bool
    ensures { result ≡ counts_within z }
{
    let n = line_verdict::between(1, z.n, 1000000000);
    let p = line_verdict::between(1, z.p, 32);
    let q = line_verdict::between(0, z.q, 524280);
    let k = line_verdict::between(0, z.k, 8);
    let flag = line_verdict::between(0, z.flag, 1);
    n & p & q & k & flag
}
