ghost use Rattle.std.specs.Prelude.{◌≡◌, cond, nat_lt, Some, None};
ghost use Rattle.model.specs.Tables.{open_layer};
ghost use Rattle.model.proofs.Lawful.{open_lawful};

use super::book::Book;
use model::{Context, Kind, Row};

// No book has more types than this.
const MOST_TYPES: usize = 1000;

// The open layer stands over a book. A tag that begins with `_` and that the book below does not know where it stands has
// one further type, which takes anything, and so has every tag under that type. The book below answers all else, and
// everything if its types are as many as there may be.
#[derive(Clone, Copy, Drop, PartialEq, Eq, Debug)]
pub struct Open<B> {
    pub below: B,
}

impl<B: Book> Open<B> {
    // The further type, where there is room for it.
    fn further(&self) -> Option<u16>
        ensures { let types = (B.meaning self.now.below).types in result ≡ cond (nat_lt types 1000) (Some types) None }
    {
        let further = self.below.types();
        (further < MOST_TYPES).then_some(further as u16)
    }

    // The row of a tag that the book below has none for.
    fn further_row(&self, context: Context, tag: &[u8]) -> Option<Row>
        ensures { let m = B.meaning self.now.below in m.row context tag.now ≡ None → result ≡ (open_layer m).row context tag.now }
    {
        let further = self.further()?;
        let free = Row {
            typed: further,
            required: false,
            many: true,
        };
        match context {
            Context::Under(typed) if typed == further => Some(free),
            Context::Under(typed) if typed > further => None,
            Context::Top | Context::Under(_) => tag.starts_with(b"_").then_some(free),
        }
    }
}

impl<B: Book> Book for Open<B> {
    ghost meaning = { λ o. open_layer (B.Book.meaning o.below) };

    ghost lawful = { λ x. open_lawful (B.Book.meaning x.below) (B.Book.lawful x.below) };

    fn types(&self) -> usize {
        let below = self.below.types();
        below + usize::from(below < MOST_TYPES)
    }

    fn row(&self, context: Context, tag: &[u8]) -> Option<Row> {
        self.below
            .row(context, tag)
            .or_else(|| self.further_row(context, tag))
    }

    fn needs(&self, context: Context) -> usize {
        self.below.needs(context)
    }

    fn need(&self, context: Context, j: usize) -> Option<u16> {
        self.below.need(context, j)
    }

    fn kind(&self, typed: u16) -> Kind {
        if self.further() == Some(typed) {
            Kind::Anything
        } else {
            self.below.kind(typed)
        }
    }

    fn member(&self, set: u16, word: &[u8]) -> bool {
        self.below.member(set, word)
    }
}
