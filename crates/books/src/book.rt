ghost use Rattle.std.specs.Prelude.{◌≡◌};
ghost use Rattle.model.specs.Books.{Meaning, Lawful};

use model::{Context, Kind, Row};

// A book of rules. A context is the top of a tree or a type of structure; types are numbered from 0. The meaning of a
// book is what it answers to these six questions, and asking changes nothing. What a question asks about are its parameters,
// since each asks about something else.
pub trait Book {
    ghost meaning: { Self → Meaning };

    // How many types there are, at most 1,000.
    fn types(&self) -> usize
        ensures { result ≡ (meaning self.now).types };

    // What the book says of a tag in a context: none, or its type, whether one is required there, and whether many may stand
    // there.
    fn row(&self, context: Context, tag: &[u8]) -> Option<Row>
        ensures { result ≡ (meaning self.now).row context tag.now };

    // How many types a context requires.
    fn needs(&self, context: Context) -> usize
        ensures { result ≡ (meaning self.now).needs context };

    // The required type number `j` of a context, counted from 0, or none past the last.
    fn need(&self, context: Context, j: usize) -> Option<u16>
        ensures { result ≡ (meaning self.now).need context j };

    // The payload kind of a type.
    fn kind(&self, typed: u16) -> Kind
        ensures { result ≡ (meaning self.now).kind typed };

    // Whether a word is of a set.
    fn member(&self, set: u16, word: &[u8]) -> bool
        ensures { result ≡ (meaning self.now).member set word.now };

    ghost lawful: { (x : Self) → Lawful (meaning x) };
}

// A book that is lent is the book itself.
impl<B: Book> Book for &B {
    ghost meaning = { λ r. B.Book.meaning r.now };

    fn types(&self) -> usize {
        (**self).types()
    }

    fn row(&self, context: Context, tag: &[u8]) -> Option<Row> {
        (**self).row(context, tag)
    }

    fn needs(&self, context: Context) -> usize {
        (**self).needs(context)
    }

    fn need(&self, context: Context, j: usize) -> Option<u16> {
        (**self).need(context, j)
    }

    fn kind(&self, typed: u16) -> Kind {
        (**self).kind(typed)
    }

    fn member(&self, set: u16, word: &[u8]) -> bool {
        (**self).member(set, word)
    }

    ghost lawful = { λ r. B.Book.lawful r.now };
}
