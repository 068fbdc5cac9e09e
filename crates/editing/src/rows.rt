// Rows of structures, by the levels of their cards.
ghost use Rattle.std.specs.Prelude.{◌≡◌, ◌+◌, ◌≤◌, List, drop, Some};
ghost use Rattle.model.specs.Datasets.{Entry};
ghost use Rattle.model.specs.Edits.{block};
ghost use Rattle.model.specs.Removal.{how_many};
ghost use Rattle.editing.specs.Rows.{types_in, told_at};

use crate::tree::Tree;
use books::Book;
use judging::Entries;
use model::Context;

// The structures under one superstructure, or those at the top: the context that they stand in, their level, and the
// card of the first.
#[derive(Clone, Copy)]
pub struct Siblings {
    pub context: Context,
    pub level: usize,
    pub first: usize,
}

impl<B: Book, E: Entries> Tree<'_, B, E> {
    // Where the cards below one of this level end, of those from a position on.
    pub fn block_end(&self, level: usize, from: usize) -> usize
        ensures low { from ≤ result }
        ensures ends { (b : List Entry) → E.shows self.now.entries.now b → result ≡ from + block level (drop from b) }
    {
        let deeper = (from..self.count).take_while(|at| self.level(*at) > level);
        from + deeper.count()
    }

    // Whether a structure of a type stands at a position, in a row of this context and level; none where the row has ended.
    // The level is asked once, since it is read from the file.
    fn stands(&self, siblings: Siblings, at: usize, typed: u16) -> Option<bool>
        ensures { (b : List Entry) → E.shows self.now.entries.now b → result ≡ told_at (B.meaning self.now.book.now) b siblings typed at }
    {
        if at >= self.count {
            return None;
        }
        let level = self.level(at);
        if level < siblings.level {
            return None;
        }
        Some(
            level == siblings.level
                && self
                    .row(siblings.context, at)
                    .is_some_and(|row| typed == row.typed),
        )
    }

    // How many structures of a type stand in a row.
    pub fn count_typed(&self, siblings: Siblings, typed: u16) -> usize
        ensures { (b : List Entry) → E.shows self.now.entries.now b → result ≡ how_many (Some typed) (types_in (B.meaning self.now.book.now) b siblings) }
    {
        let row = (siblings.first..self.count).map_while(|at| self.stands(siblings, at, typed));
        row.filter(|stands| *stands).count()
    }
}
