ghost use Rattle.std.specs.Prelude.{◌≡◌, Decides};
ghost use Rattle.model.specs.Datasets.{Payload};
ghost use Rattle.model.specs.Kinds.{Takes};
ghost use Rattle.model.specs.Grammar.{takes_line};
ghost use Rattle.kinds.specs.Contents.{StandsFor};

use crate::age::is_age;
use crate::kind::{takes_lines, takes_nothing, takes_pointers};
use crate::time::is_time;
use books::Book;
use dates::{is_date_value, is_exact, is_period};
use model::Kind;
use pieces::{are_texts, are_words, is_flag, is_integer, is_person, is_version};

// What a payload holds, as far as kinds ask. Nothing is one of five cases, and no Option, since a kind asks which it is.
#[derive(Clone, Copy)]
pub enum Content<'a> {
    // no payload
    Nothing,
    // a pointer to no record
    Void,
    // a pointer, by the identifier of its record
    Pointer(&'a [u8]),
    // a text of one line
    Line(&'a [u8]),
    // a text of several lines, which no kind looks into
    Lines,
}

fn takes_line<B: Book>(book: &B, kind: Kind, text: &[u8]) -> bool
    ensures { result ≡ takes_line (B.meaning book.now) kind text.now }
{
    match kind {
        Kind::Nothing | Kind::Pointer(_) => false,
        Kind::Text | Kind::Anything => true,
        Kind::Flag => is_flag(text),
        Kind::Integer => is_integer(text),
        Kind::Word(set) => book.member(set, text),
        Kind::Words(set) => are_words(book, set, text),
        Kind::Texts => are_texts(text),
        Kind::Date => is_date_value(text),
        Kind::Period => is_period(text),
        Kind::Exact => is_exact(text),
        Kind::Time => is_time(text),
        Kind::Age => is_age(text),
        Kind::Name => is_person(text),
        Kind::Version => is_version(text),
    }
}

// Whether a kind takes a payload.
pub fn takes<B: Book>(book: &B, kind: Kind, content: Content<'_>) -> bool
    ensures { (payload : Payload) → StandsFor content.entry payload → Decides result (Takes (B.meaning book.now) kind payload) }
{
    match content {
        Content::Nothing => takes_nothing(kind),
        Content::Void | Content::Pointer(_) => takes_pointers(kind),
        Content::Line(text) => takes_line(book, kind, text),
        Content::Lines => takes_lines(kind),
    }
}
