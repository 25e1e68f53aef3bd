// The words of an answer in the list that a caller lends for them: the two places, and as many values as the kind of answer has. It gives the number.
ghost use Rattle.std.specs.Prelude.{◌≡◌, ◌+◌, ◌≤◌, length};
ghost use Rattle.capi.specs.Told.{leaves, told};

use refusal::Numbers;

pub fn tell<const N: usize>(n: Numbers, values: [u64; N], answer: &mut [u64]) -> u64
    requires { 2 + N ≤ length answer.old }
    ensures { leaves result answer.new ≡ told n values.entry answer.old }
{
    answer[0] = n.first;
    answer[1] = n.second;
    answer[2..2 + N].copy_from_slice(&values);
    n.number
}
