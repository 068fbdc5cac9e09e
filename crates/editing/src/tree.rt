// The entries of a tree by their positions.
ghost use Rattle.std.specs.Prelude.{◌≡◌, ◌<◌, List, length, slice_index_or};
ghost use Rattle.model.specs.Datasets.{Entry};
ghost use Rattle.model.specs.Edits.{no_entry};

use books::Book;
use judging::Entries;
use model::{Context, Row};

// The entries of a tree, counted, and the book that has their rows. Which they are stays a premise of each contract, since
// `shows` is a relation, and a ghost field holds no list.
#[derive(Drop)]
pub struct Tree<'a, B, E: Entries> {
    pub book: &'a B,
    pub entries: &'a E,
    pub count: usize,
    pub ghost counted: { (b : List Entry) → E.shows entries.now b → count ≡ length b },
}

impl<B: Book, E: Entries> Tree<'_, B, E> {
    pub fn level(&self, at: usize) -> usize
        ensures byte { result < 256 }
        ensures level { (b : List Entry) → E.shows self.now.entries.now b → at < length b → result ≡ (slice_index_or b at no_entry).level }
    {
        self.entries.level(at) as usize
    }

    // The row of an entry that stands in the context.
    pub fn row(&self, context: Context, at: usize) -> Option<Row>
        ensures { (b : List Entry) → E.shows self.now.entries.now b → at < length b → result ≡ (B.meaning self.now.book.now).row context (slice_index_or b at no_entry).tag }
    {
        self.book.row(context, self.entries.tag(at))
    }
}
