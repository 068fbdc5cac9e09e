// The edit of a removal, done to a drawer.
ghost use Rattle.std.specs.Prelude.{◌≡◌, ◌<◌, ◌≤◌, length};
ghost use Rattle.model.specs.Datasets.{Dataset, entries};
ghost use Rattle.model.specs.Cards.{Holds};
ghost use Rattle.model.specs.Removal.{card_count};
ghost use Rattle.model.specs.Edits.{applied_cards, dropped};
ghost use Rattle.editing.specs.Showing.{Inside};

use crate::gaps::delete;
use crate::pointers::void_pointers;
use crate::states::clear;
use looking::identifier_of;
use model::{Card, Edit};

// The cards from one position up to another go. Where the first is that of a record with an identifier, pointers to it
// become void.
fn take_out(file: &[u8], cards: &mut [Card], from: usize, to: usize)
    requires ordered { from < to }
    requires inside { to ≤ length cards.old }
    ensures { (d : Dataset) → Holds file.now cards.old d → to ≤ card_count d → cards.new ≡ applied_cards (Edit.Deleted from to) (entries d) cards.old }
{
    if let Some(identifier) = identifier_of(file, cards[from]) {
        void_pointers(file, cards, identifier);
    }
    delete(cards, from, to);
}

// The card at a place loses its payload, and those behind it up to a position go.
fn empty_out(file: &[u8], cards: &mut [Card], place: usize, to: usize)
    requires ordered { place < to }
    requires inside { to ≤ length cards.old }
    ensures { (d : Dataset) → Holds file.now cards.old d → to ≤ card_count d → cards.new ≡ applied_cards (Edit.Cleared place to) (entries d) cards.old }
{
    clear(file, cards, place);
    delete(cards, place + 1, to);
}

// Does an edit to a drawer, and answers how many cards went. One that reaches past the cards does nothing.
pub fn apply(file: &[u8], cards: &mut [Card], edit: Edit) -> usize
    ensures cards { (d : Dataset) → Holds file.now cards.old d → Inside edit (card_count d) → cards.new ≡ applied_cards edit (entries d) cards.old }
    ensures gone { Inside edit (length cards.old) → result ≡ dropped edit }
    ensures held { edit ≡ Edit.Withheld → cards.new ≡ cards.old }
{
    match edit {
        Edit::Deleted(from, to) if from < to && to <= cards.len() => {
            take_out(file, cards, from, to);
            to - from
        }
        Edit::Cleared(place, to) if place < to && to <= cards.len() => {
            empty_out(file, cards, place, to);
            to - (place + 1)
        }
        _ => 0,
    }
}
