// The test of a lent list of doubles (document 01, refusal 14): where its first infinity or NaN stands.
ghost use Rattle.std.specs.Prelude.{◌≡◌};
ghost use Rattle.workspace.specs.Answers.{first_infinite};
ghost use Rattle.replace_response.specs.finite.Found.{as_option};

// The index of the first double that is not finite.
pub fn first_infinite(l: &[f64]) -> Option<usize>
    ensures { result ≡ as_option (first_infinite 0 l.now) }
{
    l.iter().position(|x| !x.is_finite())
}
