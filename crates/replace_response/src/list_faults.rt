// What the lists that a call is lent are refused with (document 01, numbers 13 and 14).
ghost use Rattle.std.specs.Prelude.{◌≡◌, [], ◌∷◌};
ghost use Rattle.workspace.specs.Answers.{length_fault, word_fault, list_fault};
ghost use Rattle.workspace.specs.Response.{response, lists_of, response_lengths};
ghost use Rattle.replace_response.specs.list_faults.Words.{words_fault};

use crate::finite;
use layout::Layout;
use refusal::Refusal;

// 13 of the first list that has another length than the layout says: Z'y, X'y, y'y.
fn check_lengths(layout: Layout, zty: usize, xty: usize, yty: usize) -> Result<(), Refusal>
    ensures { result ≡ length_fault 0 (response_lengths layout) (zty ∷ xty ∷ yty ∷ []) }
{
    if zty as u64 != layout.q {
        return Err(Refusal::WrongLength { list: 0 });
    }
    if xty as u64 != layout.p {
        return Err(Refusal::WrongLength { list: 1 });
    }
    if yty != 1 {
        return Err(Refusal::WrongLength { list: 2 });
    }
    Ok(())
}

// 14 of the list with this number where it has an infinity or NaN: the first one's index.
pub fn check_words(list: u64, l: &[f64]) -> Result<(), Refusal>
    ensures { result ≡ words_fault list l.now }
{
    match finite::first_infinite(l) {
        Some(i) => Err(Refusal::NotFinite {
            list,
            index: i as u64,
        }),
        None => Ok(()),
    }
}

// 14 of the first list of a response that has an infinity or NaN.
fn check_all_words(zty: &[f64], xty: &[f64], yty: &[f64]) -> Result<(), Refusal>
    ensures { result ≡ word_fault 0 (lists_of (response zty.now xty.now yty.now)) }
{
    check_words(0, zty)?;
    check_words(1, xty)?;
    check_words(2, yty)
}

// 13 or 14 of the lists of a response: every length before any word.
pub fn check_lists(layout: Layout, zty: &[f64], xty: &[f64], yty: &[f64]) -> Result<(), Refusal>
    ensures { result ≡ list_fault (response_lengths layout) (lists_of (response zty.now xty.now yty.now)) }
{
    check_lengths(layout, zty.len(), xty.len(), yty.len())?;
    check_all_words(zty, xty, yty)
}
