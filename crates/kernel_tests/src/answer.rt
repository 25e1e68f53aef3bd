// What a kernel answers, as a word: a refused pivot's row, counted from 1, or a double; 0 where it answers neither.
use re_lower::RefusedPivot;

// The answer where the arguments are not those that the kernel takes. It is no double's word, since a NaN has one word only.
pub const OUT_OF_FORM: u64 = 0xffffffffffffffff;

pub fn row(p: Result<(), RefusedPivot>) -> u64 {
    match p {
        Ok(()) => 0,
        Err(refused) => (refused.row % 65536 + 1) as u64,
    }
}
