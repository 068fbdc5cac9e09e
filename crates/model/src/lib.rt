// What the product means: the definitions are in specs/, the laws that follow from them in proofs/. Here are the plain
// types that both speak of, and functions that do nothing but name a law, so that the check asks for its proof.
#![tactic(auto)]

ghost use Rattle.std.specs.Prelude.{◌≡◌};
ghost use Rattle.model.specs.Calls.{PerformsEvent};
ghost use Rattle.model.specs.Refusals.{refusal_number};
ghost use Rattle.model.specs.Examples.{WorkedExamples, RemovalExamples};
ghost use Rattle.model.specs.Laws.{Promised, LinedOnce, SameLinesOnce, LinesOnce, HeldOnce, RefusedOnce, WrittenHasLines, BelongsKept, DatasetKept, AfterKept, PremisesMet};

// A card stands for one line of the file that continues no other, and says what became of it. Its drawer is a table of
// cards that the caller lends.
#[derive(Clone, Copy, PartialEq, Eq, Debug)]
pub struct Card {
    pub byte: u32,
    pub state: State,
}

impl Card {
    // Names no line.
    pub const BLANK: Card = Card {
        byte: 0,
        state: State::Blank,
    };
}

// No drawer takes more cards than this, however many it has.
pub const MOST: usize = 65_535;

// What became of a card's line: it stands as filed, its pointer was made void, its payload was taken away, or the card
// names no line. Blank is no absence of a state: a blank card has one form, and with another a drawer holds nothing.
#[derive(Clone, Copy, PartialEq, Eq, Debug)]
pub enum State {
    Filed,
    Voided,
    Emptied,
    Blank,
}

// Where a structure stands: at the top, with the header and the records, or under a structure of a type. No Option, since the
// names say which is meant.
#[derive(Clone, Copy, PartialEq, Eq, Debug)]
pub enum Context {
    Top,
    Under(u16),
}

// What a book of rules says of a tag in a context: its type, whether one has to stand there, and whether several may.
#[derive(Clone, Copy, PartialEq, Eq, Debug)]
pub struct Row {
    pub typed: u16,
    pub required: bool,
    pub many: bool,
}

// What payload a type takes. A word and a list of words are of a set of the book, a pointer names a record of a type.
#[derive(Clone, Copy, PartialEq, Eq, Debug)]
pub enum Kind {
    Nothing,
    Text,
    Flag,
    Integer,
    Word(u16),
    Words(u16),
    Texts,
    Date,
    Period,
    Exact,
    Time,
    Age,
    Name,
    Version,
    Pointer(u16),
    Anything,
}

// Where something was found in a file: its line from 1 and its byte from 0.
#[derive(Clone, Copy, PartialEq, Eq, Debug)]
pub struct Place {
    pub line: u32,
    pub byte: u32,
}

impl Place {
    // No place in a file. It is no Option, since a refusal without a place tells these numbers.
    pub const NOWHERE: Place = Place { line: 0, byte: 0 };
}

// What a refusal tells: its number, a place in the file, `NOWHERE` where it has none, and the type that is missing. The place
// is two numbers here, since the definitions of the refusals have them so.
#[derive(Clone, Copy, PartialEq, Eq, Debug)]
pub struct Fault {
    pub number: u8,
    pub line: u32,
    pub byte: u32,
    pub missing: Option<u16>,
}

// Why a call on a drawer says no, with its number. A reading has faults of its own, which tell a place in the file.
#[derive(Clone, Copy, PartialEq, Eq, Debug)]
pub enum Refusal {
    // the drawer holds no dataset of the file
    Unheld = 20,
    // that dataset does not belong to the book
    Foreign,
    // the card is the first, the last or past them
    Fixed,
    // the removal meets a held structure
    Held,
    // the card is past the last
    Past,
    // the written form is longer than a file may be
    Oversized,
    // the buffer is shorter than the written form
    Cramped,
}

impl Refusal {
    // Its number.
    pub fn number(self) -> u8
        ensures { result ≡ refusal_number self }
    {
        self as u8
    }
}

// What a removal does to the cards, by their positions: nothing, since a structure is held; those from one up to another go;
// or the one at a place loses its payload, and those behind it up to another go. No Option of the last two, since the
// definitions and laws speak of the three.
#[derive(Clone, Copy, PartialEq, Eq, Debug)]
pub enum Edit {
    Withheld,
    Deleted(usize, usize),
    Cleared(usize, usize),
}

// One call of any kind, for a caller that takes them from elsewhere.
#[derive(Clone, Copy, PartialEq, Eq, Debug)]
pub enum Call {
    Read,
    Remove(usize),
    Open,
    Count,
    Look(usize),
    More(usize, usize),
    Size,
    Write,
}

// For every lawful book reading is exact, runs are faithful, and what was removed leaves no trace.
pub fn promises_stand()
    ensures { Promised PerformsEvent }
{}

// A file has one list of lines at most, those lines are of one dataset at most, and so a file has one, a drawer holds one.
pub fn datasets_are_unique()
    ensures lined { LinedOnce }
    ensures same_lines { SameLinesOnce }
    ensures of_file { LinesOnce }
    ensures held { HeldOnce }
{}

// A file gets one refusal at most.
pub fn refusals_are_unique()
    ensures { RefusedOnce }
{}

// What is written of a dataset has its lines.
pub fn writing_keeps_lines()
    ensures { WrittenHasLines }
{}

// What a removal leaves is a dataset, and belongs to the book that the tree belonged to.
pub fn removal_keeps_rules()
    ensures belongs { BelongsKept }
    ensures dataset { DatasetKept }
    ensures after { AfterKept }
{}

// The promises speak of something: there are trees and calls that meet their premises.
pub fn premises_are_met()
    ensures { PremisesMet }
{}

// The definitions by example.
pub fn examples_hold()
    ensures worked { WorkedExamples }
    ensures removals { RemovalExamples }
{}
