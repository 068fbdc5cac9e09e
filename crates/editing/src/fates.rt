// What becomes of one structure that a removal meets.
ghost use Rattle.std.specs.Prelude.{◌≡◌, ◌<◌, List, length, slice_index_or};
ghost use Rattle.model.specs.Datasets.{Entry};
ghost use Rattle.model.specs.Edits.{no_entry};
ghost use Rattle.editing.specs.Rows.{types_in, emptiable, excused, stays, bare_by, first_by, raised_by};

use crate::rows::Siblings;
use crate::tree::Tree;
use books::Book;
use judging::Entries;
use kinds::{Content, is_pointer, may_be_emptied};
use model::{Context, Edit, Row};

// A structure: its row in the book, its card, and where the cards below it end.
#[derive(Clone, Copy)]
pub struct Structure {
    pub row: Option<Row>,
    pub card: usize,
    pub stop: usize,
}

impl<B: Book, E: Entries> Tree<'_, B, E> {
    // Whether one that must stay can be left without content.
    fn can_be_emptied(&self, row: Row) -> bool
        ensures { result ≡ emptiable (B.meaning self.now.book.now) row }
    {
        let kind = self.book.kind(row.typed);
        let needs = self.book.needs(Context::Under(row.typed));
        needs == 0 && (is_pointer(kind) || may_be_emptied(kind))
    }

    // Whether a structure may stand with neither payload nor substructure.
    fn is_excused(&self, row: Option<Row>) -> bool
        ensures { result ≡ excused (B.meaning self.now.book.now) row }
    {
        row.is_some_and(|row| row.required && may_be_emptied(self.book.kind(row.typed)))
    }

    // Whether a structure without substructures is bare, and not excused for it.
    fn is_bare(&self, structure: Structure) -> bool
        ensures { (b : List Entry) → E.shows self.now.entries.now b → structure.card < length b → result ≡ bare_by (B.meaning self.now.book.now) structure.row (slice_index_or b structure.card no_entry).payload }
    {
        matches!(self.entries.content(structure.card), Content::Nothing)
            && !self.is_excused(structure.row)
    }

    // Whether a structure is required, and the only one of its type in its row.
    fn must_stay(&self, siblings: Siblings, row: Row) -> bool
        ensures { (b : List Entry) → E.shows self.now.entries.now b → result ≡ stays row (types_in (B.meaning self.now.book.now) b siblings) }
    {
        row.required && self.count_typed(siblings, row.typed) == 1
    }

    // What the removal of a structure does: it goes with all below it, it stays without content, or it is held.
    pub fn remove_one(&self, siblings: Siblings, structure: Structure) -> Edit
        ensures { (b : List Entry) → E.shows self.now.entries.now b → result ≡ first_by (B.meaning self.now.book.now) structure.row (types_in (B.meaning self.now.book.now) b siblings) structure.card structure.stop }
    {
        let Structure { row, card, stop } = structure;
        match row {
            Some(row) if self.must_stay(siblings, row) => {
                if self.can_be_emptied(row) {
                    Edit::Cleared(card, stop)
                } else {
                    Edit::Withheld
                }
            }
            _ => Edit::Deleted(card, stop),
        }
    }

    // What is done below a structure, unless that leaves it bare: then it is removed by the same rule.
    pub fn raise(&self, siblings: Siblings, structure: Structure, below: Edit) -> Edit
        requires { structure.card < structure.stop }
        ensures { (b : List Entry) → E.shows self.now.entries.now b → structure.card < length b → result ≡ raised_by (B.meaning self.now.book.now) structure.row (types_in (B.meaning self.now.book.now) b siblings) (slice_index_or b structure.card no_entry).payload structure.card structure.stop below }
    {
        let Edit::Deleted(from, to) = below else {
            return below;
        };
        let all = from == structure.card + 1 && to == structure.stop;
        if all && self.is_bare(structure) {
            self.remove_one(siblings, structure)
        } else {
            below
        }
    }
}
