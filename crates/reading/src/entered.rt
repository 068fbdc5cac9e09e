// The entries of the dataset that a drawer's cards file.
ghost use Rattle.std.specs.Prelude.{◌≡◌, slice_index_or};
ghost use Rattle.model.specs.Cards.{blank};
ghost use Rattle.reading.specs.Entered.{Enters};

use judging::Entries;
use kinds::Content;
use looking::{content_of, level_of, tag_of};
use model::Card;
use naming::{Named, find};

// The cards of a drawer before its blank ones, the file that they name lines of, and the index of their identifiers.
#[derive(Clone, Copy)]
pub struct Entered<'f, 'c, 'n> {
    pub file: &'f [u8],
    pub cards: &'c [Card],
    pub names: &'n [Named<'f>],
}

impl Entered<'_, '_, '_> {
    // A card. The trait says nothing of one past the last, so the blank card serves there, and this is no Option.
    fn card(&self, i: usize) -> Card
        ensures { result ≡ slice_index_or self.now.cards.now i blank }
    {
        self.cards.get(i).copied().unwrap_or(Card::BLANK)
    }
}

impl<'f, 'c, 'n> Entries for Entered<'f, 'c, 'n> {
    ghost shows = { λ s b. Enters s.file.now s.cards.now s.names.now b };

    fn count(&self) -> usize {
        self.cards.len().saturating_sub(1)
    }

    fn level(&self, i: usize) -> u8 {
        level_of(self.file, self.card(i))
    }

    fn tag(&self, i: usize) -> &[u8] {
        tag_of(self.file, self.card(i))
    }

    fn content(&self, i: usize) -> Content<'_> {
        content_of(self.file, self.card(i))
    }

    fn target(&self, i: usize) -> Option<usize> {
        match self.content(i) {
            Content::Pointer(pointer) => find(self.names, pointer),
            Content::Nothing | Content::Void | Content::Line(_) | Content::Lines => None,
        }
    }
}
