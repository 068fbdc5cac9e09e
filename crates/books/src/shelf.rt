ghost use Rattle.std.specs.Prelude.{◌≡◌, Some, codes};
ghost use Rattle.std.specs.Fmt.{padded};
ghost use Rattle.books.specs.Shelves.{name_of, meaning_of, IsNamed};
ghost use Rattle.books.specs.declared.shelf.Shelf.TheVariants.{Home, Plain, Open};
ghost use Rattle.model.specs.Tables.{home};
ghost use Rattle.model.proofs.Lawful.{plain_lawful, home_lawful, open_lawful};

use super::book::Book;
use super::home::Home;
use super::open::Open;
use super::plain::Plain;
use model::{Context, Kind, Row};
use std::error::Error;
use std::fmt;
use std::str::FromStr;

// A book that a person can name.
#[derive(Clone, Copy, PartialEq, Eq, Debug)]
pub enum Shelf {
    Home,
    Plain,
    Open,
}

// The home book under the open layer.
const OPEN_HOME: Open<Home> = Open { below: Home };

impl Shelf {
    pub fn name(self) -> &'static str
        ensures { result.now ≡ name_of self }
    {
        match self {
            Shelf::Home => "home",
            Shelf::Plain => "plain",
            Shelf::Open => "open",
        }
    }
}

impl fmt::Display for Shelf {
    ghost output = { λ shelf. Some (name_of shelf) };

    ghost styled_output = { λ shelf spec. Some (padded spec (name_of shelf)) };

    fn fmt<W: fmt::Write>(&self, f: &mut fmt::Formatter<W>) -> fmt::Result {
        f.pad(self.name())
    }
}

// No book has the name.
#[derive(Clone, Copy, PartialEq, Eq, Debug)]
pub struct NoSuchBook;

impl fmt::Display for NoSuchBook {
    ghost output = { λ _. Some (codes "there is no such book; name home, plain or open") };

    fn fmt<W: fmt::Write>(&self, f: &mut fmt::Formatter<W>) -> fmt::Result {
        f.write_str("there is no such book; name home, plain or open")
    }
}

impl Error for NoSuchBook {}

impl FromStr for Shelf {
    type Err = NoSuchBook;

    ghost from_str_gives = { IsNamed };

    fn from_str(name: &str) -> Result<Shelf, NoSuchBook> {
        match name {
            "home" => Ok(Shelf::Home),
            "plain" => Ok(Shelf::Plain),
            "open" => Ok(Shelf::Open),
            _ => Err(NoSuchBook),
        }
    }
}

// A match in each question: no function may hand out a dyn book, and the check knows no bound on a closure that takes one.
impl Book for Shelf {
    ghost meaning = { meaning_of };

    ghost lawful = { elim [ Home ↦ home_lawful | Plain ↦ plain_lawful | Open ↦ open_lawful home home_lawful ] };

    fn types(&self) -> usize {
        match self {
            Shelf::Home => Home.types(),
            Shelf::Plain => Plain.types(),
            Shelf::Open => OPEN_HOME.types(),
        }
    }

    fn row(&self, context: Context, tag: &[u8]) -> Option<Row> {
        match self {
            Shelf::Home => Home.row(context, tag),
            Shelf::Plain => Plain.row(context, tag),
            Shelf::Open => OPEN_HOME.row(context, tag),
        }
    }

    fn needs(&self, context: Context) -> usize {
        match self {
            Shelf::Home => Home.needs(context),
            Shelf::Plain => Plain.needs(context),
            Shelf::Open => OPEN_HOME.needs(context),
        }
    }

    fn need(&self, context: Context, j: usize) -> Option<u16> {
        match self {
            Shelf::Home => Home.need(context, j),
            Shelf::Plain => Plain.need(context, j),
            Shelf::Open => OPEN_HOME.need(context, j),
        }
    }

    fn kind(&self, typed: u16) -> Kind {
        match self {
            Shelf::Home => Home.kind(typed),
            Shelf::Plain => Plain.kind(typed),
            Shelf::Open => OPEN_HOME.kind(typed),
        }
    }

    fn member(&self, set: u16, word: &[u8]) -> bool {
        match self {
            Shelf::Home => Home.member(set, word),
            Shelf::Plain => Plain.member(set, word),
            Shelf::Open => OPEN_HOME.member(set, word),
        }
    }
}
