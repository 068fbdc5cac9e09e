ghost use Rattle.std.specs.Prelude.{◌≡◌};
ghost use Rattle.std.specs.Str.{bytes_eq};
ghost use Rattle.model.specs.Kinds.{cut};
ghost use Rattle.model.specs.Grammar.{is_month, after_epoch, after_year, after_number, after_date_in, after_date, is_date, is_after, is_between, is_period, is_qualified, is_date_value, is_exact};
ghost use Rattle.pieces.specs.Words.{words_of, left_of};

use crate::calendar::Calendar;
use crate::calendar::french_r::FrenchR;
use crate::calendar::gregorian::Gregorian;
use crate::calendar::hebrew::Hebrew;
use crate::calendar::julian::Julian;
use pieces::{Words, is_integer, is_one_of};

fn is_month<C: Calendar>(word: &[u8]) -> bool
    ensures { result ≡ is_month C.reckoning word.now }
{
    is_one_of(word, C::all_months())
}

// What is left behind the word for years before the first, if that word stands here and the calendar has such years.
fn after_epoch<'a, C: Calendar>(words: Words<'a>) -> Words<'a>
    ensures { words_of result ≡ after_epoch C.reckoning (words_of words.entry) }
{
    words.skip_if(|word| C::BCE && word == b"BCE".as_slice())
}

fn after_year<'a, C: Calendar>(words: Words<'a>) -> Option<Words<'a>>
    ensures { left_of result ≡ after_year C.reckoning (words_of words.entry) }
{
    let (word, rest) = words.split_first()?;
    is_integer(word).then(|| after_epoch::<C>(rest))
}

// Behind a number, which is a day if a month follows it, and else a year.
fn after_number<'a, C: Calendar>(words: Words<'a>) -> Option<Words<'a>>
    ensures { left_of result ≡ after_number C.reckoning (words_of words.entry) }
{
    match words.split_first() {
        Some((word, rest)) if is_month::<C>(word) => after_year::<C>(rest),
        _ => Some(after_epoch::<C>(words)),
    }
}

// Behind a date of one calendar, without that calendar's name. A day, a month, a year and the word for years before the
// first stand in this order. Only the year has to stand there, and a day only before a month.
pub fn after_date_in<'a, C: Calendar>(words: Words<'a>) -> Option<Words<'a>>
    ensures { left_of result ≡ after_date_in C.reckoning (words_of words.entry) }
{
    let (word, rest) = words.split_first()?;
    if is_month::<C>(word) {
        after_year::<C>(rest)
    } else if is_integer(word) {
        after_number::<C>(rest)
    } else {
        None
    }
}

fn is_named<C: Calendar>(word: &[u8]) -> bool
    ensures { result ≡ bytes_eq word.now C.reckoning.name }
{
    word == C::full_name()
}

// Behind a date. It is of the Gregorian calendar where it names none. An arm for each calendar, since types have no loop.
fn after_date(words: Words<'_>) -> Option<Words<'_>>
    ensures { left_of result ≡ after_date (words_of words.entry) }
{
    let (word, rest) = words.split_first()?;
    if is_named::<Gregorian>(word) {
        after_date_in::<Gregorian>(rest)
    } else if is_named::<Julian>(word) {
        after_date_in::<Julian>(rest)
    } else if is_named::<FrenchR>(word) {
        after_date_in::<FrenchR>(rest)
    } else if is_named::<Hebrew>(word) {
        after_date_in::<Hebrew>(rest)
    } else {
        after_date_in::<Gregorian>(words)
    }
}

fn is_date(words: Words<'_>) -> bool
    ensures { result ≡ is_date (words_of words.entry) }
{
    after_date(words).is_some_and(|rest| rest.is_empty())
}

// A word and a date.
fn is_after(word: &[u8], words: Words<'_>) -> bool
    ensures { result ≡ is_after word.now (words_of words.entry) }
{
    words.strip_first(word).is_some_and(is_date)
}

// A word, a date, another word and a date.
fn is_between(first: &[u8], second: &[u8], words: Words<'_>) -> bool
    ensures { result ≡ is_between first.now second.now (words_of words.entry) }
{
    words
        .strip_first(first)
        .and_then(after_date)
        .is_some_and(|rest| is_after(second, rest))
}

fn is_period_in(words: Words<'_>) -> bool
    ensures { result ≡ is_period (words_of words.entry) }
{
    is_after(b"FROM", words) || is_after(b"TO", words) || is_between(b"FROM", b"TO", words)
}

// A date that says how it was found.
fn is_qualified(words: Words<'_>) -> bool
    ensures { result ≡ is_qualified (words_of words.entry) }
{
    words.split_first().is_some_and(|(word, rest)| {
        is_one_of(word, &[b"AFT", b"BEF", b"ABT", b"CAL", b"EST"]) && is_date(rest)
    })
}

// From a date, to a date, or both.
pub fn is_period(text: &[u8]) -> bool
    ensures { result ≡ is_period (cut 32 text.now) }
{
    is_period_in(Words::of(text))
}

// A date, a period, some date between two, or a date that says how it was found.
pub fn is_date_value(text: &[u8]) -> bool
    ensures { result ≡ is_date_value (cut 32 text.now) }
{
    let words = Words::of(text);
    is_date(words)
        || is_period_in(words)
        || is_between(b"BET", b"AND", words)
        || is_qualified(words)
}

// A day, a Gregorian month and a year.
pub fn is_exact(text: &[u8]) -> bool
    ensures { result ≡ is_exact (cut 32 text.now) }
{
    let Some((day, rest)) = Words::of(text).split_first() else {
        return false;
    };
    let Some((month, rest)) = rest.split_first() else {
        return false;
    };
    let Some((year, rest)) = rest.split_first() else {
        return false;
    };
    is_integer(day) && is_month::<Gregorian>(month) && is_integer(year) && rest.is_empty()
}
