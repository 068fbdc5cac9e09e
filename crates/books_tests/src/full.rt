ghost use Rattle.books_tests.specs.Full.{full};
ghost use Rattle.books_tests.specs.Lawful.{full_lawful};

use books::Book;
use model::{Context, Kind, Row};

// A book of as many types as there may be, which knows no tag.
#[derive(Clone, Copy)]
pub struct Full;

impl Book for Full {
    ghost meaning = { λ _. full };

    ghost lawful = { λ _. full_lawful };

    fn types(&self) -> usize {
        1000
    }

    fn row(&self, context: Context, tag: &[u8]) -> Option<Row> {
        None
    }

    fn needs(&self, context: Context) -> usize {
        0
    }

    fn need(&self, context: Context, j: usize) -> Option<u16> {
        None
    }

    fn kind(&self, typed: u16) -> Kind {
        Kind::Nothing
    }

    fn member(&self, set: u16, word: &[u8]) -> bool {
        false
    }
}
