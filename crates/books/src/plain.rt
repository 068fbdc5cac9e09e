ghost use Rattle.model.specs.Tables.{plain};
ghost use Rattle.model.proofs.Lawful.{plain_lawful};

use super::book::Book;
use model::{Context, Kind, Row};

// The plain book asks for nothing: every tag has one type, which takes anything, at the top and under itself.
#[derive(Clone, Copy, PartialEq, Eq, Debug)]
pub struct Plain;

const ONLY: u16 = 0;

impl Book for Plain {
    ghost meaning = { λ _. plain };

    ghost lawful = { λ _. plain_lawful };

    fn types(&self) -> usize {
        1
    }

    fn row(&self, context: Context, tag: &[u8]) -> Option<Row> {
        match context {
            Context::Top | Context::Under(ONLY) => Some(Row {
                typed: ONLY,
                required: false,
                many: true,
            }),
            Context::Under(_) => None,
        }
    }

    fn needs(&self, context: Context) -> usize {
        0
    }

    fn need(&self, context: Context, j: usize) -> Option<u16> {
        None
    }

    fn kind(&self, typed: u16) -> Kind {
        match typed {
            ONLY => Kind::Anything,
            _ => Kind::Nothing,
        }
    }

    fn member(&self, set: u16, word: &[u8]) -> bool {
        false
    }
}
