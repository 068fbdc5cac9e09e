ghost use Rattle.std.specs.Prelude.{◌≡◌, [], ◌∷◌};
ghost use Rattle.model.specs.Kinds.{cut, left_trimmed, right_trimmed, all_spaces};
ghost use Rattle.model.specs.Grammar.{begins_well, ends_well, are_texts, later_pass, pieces_pass};

use crate::words::cut_at;
use books::Book;

// Without the spaces in front. The library's trimming would take tabs too, which are of the text.
fn left_trimmed(mut text: &[u8]) -> &[u8]
    ensures { result.now ≡ left_trimmed text.now }
{
    while let [b' ', rest @ ..] = text {
        text = rest;
    }
    text
}

// Without the spaces behind. Two functions, since a pattern says at which end it takes.
#[tactic(auto, using(crate::proofs::Trimming::trim_back, crate::proofs::Trimming::trim_stop))]
fn right_trimmed(mut text: &[u8]) -> &[u8]
    ensures { result.now ≡ right_trimmed text.now }
{
    while let [rest @ .., b' '] = text {
        text = rest;
    }
    text
}

fn is_blank(text: &[u8]) -> bool
    ensures { result ≡ all_spaces text.now }
{
    text.iter().all(|c| *c == b' ')
}

// What stands behind the last comma.
#[tactic(auto, using(crate::proofs::Cutting::ends_by_first, crate::proofs::Cutting::whole_piece, model::proofs::Grammars::behind_length))]
fn last_piece(mut text: &[u8]) -> &[u8]
    ensures { ends_well (cut 44 text.now) ≡ ends_well (result.now ∷ []) }
{
    while let (_, Some(behind)) = cut_at(text, b',') {
        text = behind;
    }
    text
}

// Two functions, since a slice has a method for each of its ends.
fn begins_well(first: &[u8]) -> bool
    ensures { result ≡ begins_well first.now }
{
    !first.starts_with(b" ") || is_blank(first)
}

#[tactic(auto, using(crate::proofs::Trimming::ends_with_space))]
fn ends_well(last: &[u8]) -> bool
    ensures { result ≡ ends_well (last.now ∷ []) }
{
    !last.ends_with(b" ") || is_blank(last)
}

// Texts between commas. The spaces beside a comma are not of a text, so one alone neither begins nor ends with a space, and
// of several the first begins with one, or the last ends with one, only where it is nothing but spaces.
#[tactic(auto, using(crate::proofs::Cutting::texts_by_first, crate::proofs::Trimming::ends_with_space))]
pub fn are_texts(text: &[u8]) -> bool
    ensures { result ≡ are_texts (cut 44 text.now) }
{
    match cut_at(text, b',') {
        (first, Some(rest)) => begins_well(first) && ends_well(last_piece(rest)),
        (only, None) => !only.starts_with(b" ") && !only.ends_with(b" "),
    }
}

// The words behind the first comma.
#[tactic(auto, using(crate::proofs::Cutting::later_by_first, crate::proofs::Cutting::whole_piece, model::proofs::Grammars::behind_length))]
fn are_later_words<B: Book>(book: &B, set: u16, mut text: &[u8]) -> bool
    ensures { result ≡ later_pass ((B.meaning book.now).member set) (cut 44 text.now) }
{
    while let (piece, Some(behind)) = cut_at(text, b',') {
        if !book.member(set, right_trimmed(left_trimmed(piece))) {
            return false;
        }
        text = behind;
    }
    book.member(set, left_trimmed(text))
}

// Words of a set between commas. Spaces beside a comma are dropped, and those at the very ends count as part of a word.
#[tactic(auto, using(crate::proofs::Cutting::words_by_first))]
pub fn are_words<B: Book>(book: &B, set: u16, text: &[u8]) -> bool
    ensures { result ≡ pieces_pass ((B.meaning book.now).member set) (cut 44 text.now) }
{
    match cut_at(text, b',') {
        (first, Some(rest)) => book.member(set, right_trimmed(first))
            && are_later_words(book, set, rest),
        (only, None) => book.member(set, only),
    }
}
