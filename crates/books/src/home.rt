mod table;

ghost use Rattle.std.specs.Prelude.{◌≡◌, count_by, filter, map};
ghost use Rattle.std.specs.List.{find, slice_get};
ghost use Rattle.std.specs.Option.{option_map};
ghost use Rattle.std.specs.Str.{bytes_eq};
ghost use Rattle.model.specs.Tables.{home};
ghost use Rattle.books.specs.Times.{is_required};
ghost use Rattle.books.specs.Entries.{Entries, WordsOf, row_of};
ghost use Rattle.model.proofs.Lawful.{home_lawful};

use super::book::Book;
use model::{Context, Kind, Row};
use table::*;

// The home book is a table: the rows of each context, the kind of each type, and the sets of words.
#[derive(Clone, Copy, PartialEq, Eq, Debug)]
pub struct Home;

// The entries of a context, in the order of the table.
fn entries(context: Context) -> &'static [Entry]
    ensures { Entries context result.now }
{
    match context {
        Context::Top => &AT_TOP,
        Context::Under(HEADER) => &OF_HEADER,
        Context::Under(PERSON) => &OF_PERSON,
        Context::Under(FAMILY) => &OF_FAMILY,
        Context::Under(SUBMITTER) => &OF_SUBMITTER,
        Context::Under(FORMAT) => &OF_FORMAT,
        Context::Under(FILED) => &OF_FILED,
        Context::Under(PERSONAL_NAME) => &OF_PERSONAL_NAME,
        Context::Under(BIRTH | DEATH) => &OF_BIRTH_OR_DEATH,
        Context::Under(DATE) => &OF_DATE,
        Context::Under(PLACE) => &OF_PLACE,
        Context::Under(MAP) => &OF_MAP,
        Context::Under(MARRIAGE) => &OF_MARRIAGE,
        Context::Under(HUSBAND | WIFE | CHILD) => &OF_FAMILY_MEMBER,
        Context::Under(_) => &[],
    }
}

// The words of a set.
fn words(set: u16) -> &'static [&'static [u8]]
    ensures { WordsOf set result.now }
{
    match set {
        SEXES => &SEX_WORDS,
        RESTRICTIONS => &RESTRICTION_WORDS,
        NAME_TYPES => &NAME_TYPE_WORDS,
        _ => &[],
    }
}

// The row of the first entry with a tag.
fn row_of_tag(entries: &[Entry], tag: &[u8]) -> Option<Row>
    ensures { result ≡ option_map row_of (find (λ e. bytes_eq e.0.now tag.now) entries.now) }
{
    entries
        .iter()
        .find(|Entry(known, ..)| *known == tag)
        .map(|entry| entry.row())
}

fn count_required(entries: &[Entry]) -> usize
    ensures { result ≡ count_by (λ e. is_required e.2) entries.now }
{
    entries.iter().filter(|entry| entry.is_required()).count()
}

// The type of the required entry number `j`, counted from 0.
fn required_type(entries: &[Entry], j: usize) -> Option<u16>
    ensures { result ≡ slice_get (map (λ e. e.1) (filter (λ e. is_required e.2) entries.now)) j }
{
    entries
        .iter()
        .filter(|entry| entry.is_required())
        .map(|Entry(_, typed, _)| *typed)
        .nth(j)
}

impl Book for Home {
    ghost meaning = { λ _. home };

    ghost lawful = { λ x. home_lawful };

    fn types(&self) -> usize {
        KINDS.len()
    }

    fn row(&self, context: Context, tag: &[u8]) -> Option<Row> {
        row_of_tag(entries(context), tag)
    }

    fn needs(&self, context: Context) -> usize {
        count_required(entries(context))
    }

    fn need(&self, context: Context, j: usize) -> Option<u16> {
        required_type(entries(context), j)
    }

    fn kind(&self, typed: u16) -> Kind {
        KINDS
            .get(usize::from(typed))
            .copied()
            .unwrap_or(Kind::Nothing)
    }

    fn member(&self, set: u16, word: &[u8]) -> bool {
        words(set).iter().any(|known| *known == word)
    }
}
