ghost use Rattle.std.specs.Prelude.{◌≡◌};
ghost use Rattle.model.specs.Kinds.{cut};
ghost use Rattle.model.specs.Grammar.{is_count, after_unit, is_duration, is_bounded, is_age};
ghost use Rattle.pieces.specs.Words.{words_of};

use crate::time::after_digits;
use pieces::Words;

// A number and the letter of its unit.
fn is_count(unit: u8, word: &[u8]) -> bool
    ensures { result ≡ is_count unit word.now }
{
    after_digits(word).is_some_and(|rest| rest == [unit].as_slice())
}

// Behind the first word, if that counts the unit.
fn after_unit<'a>(unit: u8, words: Words<'a>) -> Words<'a>
    ensures { words_of result ≡ after_unit unit (words_of words.entry) }
{
    words.skip_if(|word| is_count(unit, word))
}

// Some of years, months, weeks and days, in this order.
fn is_duration(words: Words<'_>) -> bool
    ensures { result ≡ is_duration (words_of words.entry) }
{
    let rest = b"ymwd"
        .iter()
        .fold(words, |rest, unit| after_unit(*unit, rest));
    !words.is_empty() && rest.is_empty()
}

// A duration under or over which an age is.
fn is_bounded(words: Words<'_>) -> bool
    ensures { result ≡ is_bounded (words_of words.entry) }
{
    words.split_first().is_some_and(|(word, rest)| matches!(word, b"<" | b">") && is_duration(rest))
}

// A duration, or one under or over which the age is.
pub fn is_age(text: &[u8]) -> bool
    ensures { result ≡ is_age (cut 32 text.now) }
{
    let words = Words::of(text);
    is_duration(words) || is_bounded(words)
}
