// The edit of the cards that a removal is.
ghost use Rattle.std.specs.Prelude.{◌≡◌, List};
ghost use Rattle.model.specs.Datasets.{Entry, Dataset, entries as entries_of};
ghost use Rattle.model.specs.Positions.{within};
ghost use Rattle.model.specs.Edits.{body, edit as edit_of};
ghost use Rattle.editing.specs.Rows.{edit_from};

use crate::fates::Structure;
use crate::rows::Siblings;
use crate::tree::Tree;
use books::Book;
use judging::Entries;
use model::{Context, Edit, Row};

impl<B: Book, E: Entries> Tree<'_, B, E> {
    // The context below a structure. A tag that the book does not know leads to a type past all of its types.
    fn inside(&self, row: Option<Row>) -> Context
        ensures { result ≡ within (B.meaning self.now.book.now) row }
    {
        Context::Under(row.map_or_else(|| self.book.types() as u16, |row| row.typed))
    }

    // What the removal of a card does that stands in this row, or below one of it, at `start` or behind.
    fn edit_row(&self, siblings: Siblings, start: usize, card: usize) -> Edit
        ensures { (b : List Entry) → E.shows self.now.entries.now b → result ≡ edit_from (B.meaning self.now.book.now) b siblings start card }
    {
        let count = self.count;
        let mut at = start;
        // positions, since each turn goes on behind a whole block
        while at < count {
            let level = self.level(at);
            if level < siblings.level {
                return Edit::Withheld;
            }
            let stop = self.block_end(siblings.level, at + 1);
            if level == siblings.level && card < stop {
                let row = self.row(siblings.context, at);
                let structure = Structure {
                    row,
                    card: at,
                    stop,
                };
                if card == at {
                    return self.remove_one(siblings, structure);
                }
                let inner = Siblings {
                    context: self.inside(row),
                    level: level + 1,
                    first: at + 1,
                };
                let below = self.edit_row(inner, at + 1, card);
                return self.raise(siblings, structure, below);
            }
            at = stop;
        }
        Edit::Withheld
    }
}

// What the removal of a card does to the cards of a tree. The header, whose card is the first, stays whatever goes below
// it, so its substructures are a row of their own.
pub fn edit<B: Book, E: Entries>(book: &B, entries: &E, card: usize) -> Edit
    ensures { (d : Dataset) → E.shows entries.now (body (entries_of d)) → result ≡ edit_of (B.meaning book.now) d card }
{
    let count = entries.count();
    let tree = Tree {
        book,
        entries,
        count,
    };
    let header_end = tree.block_end(0, 1);
    if card < header_end {
        let siblings = Siblings {
            context: tree.inside(tree.row(Context::Top, 0)),
            level: 1,
            first: 1,
        };
        tree.edit_row(siblings, 1, card)
    } else {
        let siblings = Siblings {
            context: Context::Top,
            level: 0,
            first: 0,
        };
        tree.edit_row(siblings, header_end, card)
    }
}
