ghost use Rattle.std.specs.Prelude.{◌≡◌};
ghost use Rattle.books.specs.Times.{is_required};
ghost use Rattle.books.specs.Entries.{row_of};

use model::{Kind, Row};

// How often a tag may stand among what is under one structure, or at the top.
#[derive(Clone, Copy)]
pub enum Times {
    AtMostOnce,
    Once,
    Often,
}

// A tag, the type that it has where the entry stands, and how often it may stand there. Without the names of its fields an
// entry of the table fits a line.
#[derive(Clone, Copy)]
pub struct Entry(pub &'static [u8], pub u16, pub Times);

impl Entry {
    pub fn is_required(&self) -> bool
        ensures { result ≡ is_required self.now.2 }
    {
        matches!(self.2, Times::Once)
    }

    // What the book says of the tag.
    pub fn row(&self) -> Row
        ensures { result ≡ row_of self.now }
    {
        Row {
            typed: self.1,
            required: self.is_required(),
            many: matches!(self.2, Times::Often),
        }
    }
}

// The types. Numbers and no enum, since a book numbers its types for whoever asks it.

pub const HEADER: u16 = 0;

pub const PERSON: u16 = 1;

pub const FAMILY: u16 = 2;

pub const SHARED_NOTE: u16 = 3;

pub const SUBMITTER: u16 = 4;

pub const FORMAT: u16 = 5;

pub const FILED: u16 = 6;

pub const SUBMITTED_BY: u16 = 7;

pub const NOTE: u16 = 8;

pub const VERSION: u16 = 9;

pub const TIME: u16 = 10;

pub const RESTRICTION: u16 = 11;

pub const PERSONAL_NAME: u16 = 12;

pub const SEX: u16 = 13;

pub const BIRTH: u16 = 14;

pub const DEATH: u16 = 15;

pub const CHILD_OF: u16 = 16;

pub const SPOUSE_OF: u16 = 17;

pub const NOTE_POINTER: u16 = 18;

pub const ALIAS: u16 = 19;

pub const SUBMITTER_NAME: u16 = 20;

pub const NAME_TYPE: u16 = 21;

pub const GIVEN_NAME: u16 = 22;

pub const SURNAME: u16 = 23;

pub const DATE: u16 = 24;

pub const PLACE: u16 = 25;

pub const AGE: u16 = 26;

pub const PHRASE: u16 = 27;

pub const MAP: u16 = 28;

pub const LATITUDE: u16 = 29;

pub const LONGITUDE: u16 = 30;

pub const MARRIAGE: u16 = 31;

pub const HUSBAND: u16 = 32;

pub const WIFE: u16 = 33;

pub const CHILD: u16 = 34;

// The entries of each context.

pub const AT_TOP: [Entry; 5] = [
    Entry(b"HEAD", HEADER, Times::Once),
    Entry(b"INDI", PERSON, Times::Often),
    Entry(b"FAM", FAMILY, Times::Often),
    Entry(b"SNOTE", SHARED_NOTE, Times::Often),
    Entry(b"SUBM", SUBMITTER, Times::Often),
];

pub const OF_HEADER: [Entry; 4] = [
    Entry(b"GEDC", FORMAT, Times::Once),
    Entry(b"DATE", FILED, Times::AtMostOnce),
    Entry(b"SUBM", SUBMITTED_BY, Times::AtMostOnce),
    Entry(b"NOTE", NOTE, Times::AtMostOnce),
];

pub const OF_FORMAT: [Entry; 1] = [Entry(b"VERS", VERSION, Times::Once)];

pub const OF_FILED: [Entry; 1] = [Entry(b"TIME", TIME, Times::AtMostOnce)];

pub const OF_PERSON: [Entry; 10] = [
    Entry(b"RESN", RESTRICTION, Times::AtMostOnce),
    Entry(b"NAME", PERSONAL_NAME, Times::Often),
    Entry(b"SEX", SEX, Times::AtMostOnce),
    Entry(b"BIRT", BIRTH, Times::Often),
    Entry(b"DEAT", DEATH, Times::Often),
    Entry(b"FAMC", CHILD_OF, Times::Often),
    Entry(b"FAMS", SPOUSE_OF, Times::Often),
    Entry(b"ALIA", ALIAS, Times::Often),
    Entry(b"NOTE", NOTE, Times::Often),
    Entry(b"SNOTE", NOTE_POINTER, Times::Often),
];

pub const OF_PERSONAL_NAME: [Entry; 3] = [
    Entry(b"TYPE", NAME_TYPE, Times::AtMostOnce),
    Entry(b"GIVN", GIVEN_NAME, Times::Often),
    Entry(b"SURN", SURNAME, Times::Often),
];

pub const OF_BIRTH_OR_DEATH: [Entry; 3] = [
    Entry(b"DATE", DATE, Times::AtMostOnce),
    Entry(b"PLAC", PLACE, Times::AtMostOnce),
    Entry(b"AGE", AGE, Times::AtMostOnce),
];

pub const OF_MARRIAGE: [Entry; 2] = [
    Entry(b"DATE", DATE, Times::AtMostOnce),
    Entry(b"PLAC", PLACE, Times::AtMostOnce),
];

pub const OF_DATE: [Entry; 2] = [
    Entry(b"TIME", TIME, Times::AtMostOnce),
    Entry(b"PHRASE", PHRASE, Times::AtMostOnce),
];

pub const OF_PLACE: [Entry; 1] = [Entry(b"MAP", MAP, Times::AtMostOnce)];

pub const OF_MAP: [Entry; 2] = [
    Entry(b"LATI", LATITUDE, Times::Once),
    Entry(b"LONG", LONGITUDE, Times::Once),
];

pub const OF_FAMILY: [Entry; 6] = [
    Entry(b"HUSB", HUSBAND, Times::AtMostOnce),
    Entry(b"WIFE", WIFE, Times::AtMostOnce),
    Entry(b"CHIL", CHILD, Times::Often),
    Entry(b"MARR", MARRIAGE, Times::Often),
    Entry(b"NOTE", NOTE, Times::Often),
    Entry(b"SNOTE", NOTE_POINTER, Times::Often),
];

pub const OF_FAMILY_MEMBER: [Entry; 1] = [Entry(b"PHRASE", PHRASE, Times::AtMostOnce)];

pub const OF_SUBMITTER: [Entry; 1] = [Entry(b"NAME", SUBMITTER_NAME, Times::Once)];

// The kind of each type, in the order of their numbers.
pub const KINDS: [Kind; 35] = [
    Kind::Nothing,
    Kind::Nothing,
    Kind::Nothing,
    Kind::Text,
    Kind::Nothing,
    Kind::Nothing,
    Kind::Exact,
    Kind::Pointer(SUBMITTER),
    Kind::Text,
    Kind::Version,
    Kind::Time,
    Kind::Words(RESTRICTIONS),
    Kind::Name,
    Kind::Word(SEXES),
    Kind::Flag,
    Kind::Flag,
    Kind::Pointer(FAMILY),
    Kind::Pointer(FAMILY),
    Kind::Pointer(SHARED_NOTE),
    Kind::Pointer(PERSON),
    Kind::Text,
    Kind::Word(NAME_TYPES),
    Kind::Text,
    Kind::Text,
    Kind::Date,
    Kind::Texts,
    Kind::Age,
    Kind::Text,
    Kind::Nothing,
    Kind::Text,
    Kind::Text,
    Kind::Flag,
    Kind::Pointer(PERSON),
    Kind::Pointer(PERSON),
    Kind::Pointer(PERSON),
];

// The sets of words.

pub const SEXES: u16 = 0;

pub const RESTRICTIONS: u16 = 1;

pub const NAME_TYPES: u16 = 2;

pub const SEX_WORDS: [&[u8]; 4] = [b"M", b"F", b"X", b"U"];

pub const RESTRICTION_WORDS: [&[u8]; 3] = [b"CONFIDENTIAL", b"LOCKED", b"PRIVACY"];

pub const NAME_TYPE_WORDS: [&[u8]; 7] = [
    b"AKA",
    b"BIRTH",
    b"IMMIGRANT",
    b"MAIDEN",
    b"MARRIED",
    b"PROFESSIONAL",
    b"OTHER",
];
