// The digits of a root from a table of the inverse root: the upper 32, then the lower 21, with the exact remainder of each.

ghost use Rattle.std.specs.Prelude.{◌≡◌, ◌+◌, ◌-◌, ◌*◌, ◌^◌, ◌<◌, ◌≤◌, IfSome};
ghost use Rattle.square_root.specs.whole_root.Whole.{rounded};

use crate::whole_root::Radicand;

// The inverse root of u = 1 to 4 is a - b*d + c*d^2 - e*d^3 + f*d^4, in units of 2^-31, where i numbers 16 equal stretches
// from 1 to 2 and 16 from 2 to 4, and d is how far u is into its stretch, from 0 to 1: the values at the Chebyshev nodes,
// a lower by 5 (tools/inverse_root.py). Nothing is proved of that: a bad row would cost time and not the result.
// The rows are a match, which compiles to a table in read-only memory, and whose bounds the check finds alone: the proof of an array would repeat it.
// Here a * 2^32 + b.
fn line(i: u64) -> u64
    ensures { (2 ^ 62 ≤ result) × (result < 2 ^ 63) }
{
    match i {
        0 => 9223372011152080853,
        1 => 8947985184937409815,
        2 => 8695878528871836247,
        3 => 8463946635571318946,
        4 => 8249634721049130733,
        5 => 8050819125840773508,
        6 => 7865718078468463358,
        7 => 7692824041116279706,
        8 => 7530851710461109530,
        9 => 7378697606325356983,
        10 => 7235408284623983955,
        11 => 7100155082956808272,
        12 => 6972213882722603918,
        13 => 6850948736703767893,
        14 => 6735798537487832801,
        15 => 6626266061005894266,
        16 => 6521908886995473327,
        17 => 6327180996845576965,
        18 => 6148914668369793160,
        19 => 5984914056588266320,
        20 => 5833372646716611457,
        21 => 5692788789339065150,
        22 => 5561902585864066653,
        23 => 5439648038293610153,
        24 => 5325116305778025282,
        25 => 5217527108723718721,
        26 => 5116206257524280291,
        27 => 5020567798381432545,
        28 => 4930099706768967073,
        29 => 4844352303905946626,
        30 => 4762928816418588067,
        _ => 4685477658284031112,
    }
}

// And c * 2^40 + e * 2^20 + f.
fn curve(i: u64) -> u64
    ensures { (2 ^ 58 ≤ result) × (result < 2 ^ 62) }
{
    match i {
        0 => 3458385353082150529,
        1 => 2972068029021558632,
        2 => 2576355968211227194,
        3 => 2250649818262146657,
        4 => 1979798307526937467,
        5 => 1752472067181119812,
        6 => 1560074015082547085,
        7 => 1395997185323042357,
        8 => 1255099161624184102,
        9 => 1133333740894815308,
        10 => 1027485950908826526,
        11 => 934977436720825103,
        12 => 853722424638702235,
        13 => 782018870552560187,
        14 => 718472593634492908,
        15 => 661926907582874025,
        16 => 2445448121347478930,
        17 => 2101569239667183757,
        18 => 1821758905885134051,
        19 => 1591449689002084907,
        20 => 1399929046224078878,
        21 => 1239184835606480525,
        22 => 1103138956358190423,
        23 => 987119583192155236,
        24 => 887489531364770724,
        25 => 801387871408751370,
        26 => 726541912628003470,
        27 => 661128664617845290,
        28 => 603672582678381016,
        29 => 552970801012277652,
        30 => 508037057629651292,
        _ => 468052216318525741,
    }
}

// About 2^31 over the root of q * (1 + b) / 2^52.
pub fn inverse(q: u64, b: u64) -> u64
    requires { (q < 2 ^ 53) × (b < 2) }
    ensures { result < 2 ^ 32 - 4 }
{
    let i = b * 16 + q / 281474976710656 % 16;
    let d = q / 65536 % 4294967296;
    let l = line(i);
    let k = curve(i);
    let dd = d * d / 4294967296;
    let bend = k / 1099511627776 - k / 1048576 % 262144 * d / 4294967296
        + k % 1048576 * dd / 4294967296;
    l / 4294967296 - l % 67108864 * d / 4294967296 + bend * dd / 4294967296
}

// The lower 21 digits c from what the upper digits s leave: rest + g * g is the radicand, where g = s * 2^21 + c. checked_sub costs a twentieth of
// the time of a root here.
fn lower(x: Radicand, v: u64, s: u64, r: u64) -> Option<u64>
    requires { (v < 2 ^ 32 - 4) × (s < 2 ^ 32) × (r < 2 ^ 38) × (r + s * s ≡ x.m * 1024) }
    ensures { IfSome result (λ g. g ≡ rounded (x.m * 2 ^ 52)) }
{
    let c = r / 256 * (v + 4) / 17179869184;
    if s * c > r * 1048576 {
        return None;
    }
    let t = r * 1048576 - s * c;
    if t >= 1099511627776 || c * c > t * 4194304 {
        return None;
    }
    x.root_from_remainder(s * 2097152 + c, t * 4194304 - c * c)
}

// The rounded root, given about 2^31 over the root of m / 2^52: the root's upper 32 digits s leave r. None where v is too far off.
fn root_from_inverse(x: Radicand, v: u64) -> Option<u64>
    requires { v < 2 ^ 32 - 4 }
    ensures { IfSome result (λ g. g ≡ rounded (x.m * 2 ^ 52)) }
{
    let s = x.m / 4194304 * v / 1073741824 % 4294967296;
    if s * s > x.m * 1024 {
        return None;
    }
    let r = x.m * 1024 - s * s;
    if r >= 274877906944 {
        return None;
    }
    lower(x, v, s, r)
}

// The rounded root, given about 2^31 over the root of m / 2^52.
pub fn root_near(x: Radicand, v: u64) -> u64
    requires { v < 2 ^ 32 - 4 }
    ensures { result ≡ rounded (x.m * 2 ^ 52) }
{
    match root_from_inverse(x, v) {
        Some(s) => s,
        None => x.root(),
    }
}
