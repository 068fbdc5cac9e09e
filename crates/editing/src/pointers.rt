// Pointers to a record that goes.
ghost use Rattle.std.specs.Prelude.{◌≡◌, false};
ghost use Rattle.model.specs.Datasets.{Entry, Dataset, entries};
ghost use Rattle.model.specs.Cards.{Holds};
ghost use Rattle.model.specs.Edits.{marked};
ghost use Rattle.lines.specs.Shown.{value_of};
ghost use Rattle.looking.specs.Looking.{Shown};
ghost use Rattle.editing.specs.Showing.{aims_value, aims};

use lines::Payload;
use looking::line_at;
use model::{Card, State};

fn names(payload: Payload<'_>, identifier: &[u8]) -> bool
    ensures { result ≡ aims_value identifier.now (value_of payload.entry) }
{
    matches!(payload, Payload::Pointer(pointer) if identifier == pointer)
}

// Whether a card has a pointer to the record with an identifier. A card that is not as filed has none.
fn points_to(file: &[u8], card: Card, identifier: &[u8]) -> bool
    ensures shown { (e : Entry) → Shown file.now card e → result ≡ aims identifier.now e.payload }
    ensures blank { card.state ≡ State.Blank → result ≡ false }
{
    card.state == State::Filed
        && line_at(file, card.byte as usize).is_some_and(|line| names(line.payload, identifier))
}

// Makes each pointer to the record with an identifier void.
pub fn void_pointers(file: &[u8], cards: &mut [Card], identifier: &[u8])
    ensures { (d : Dataset) → Holds file.now cards.old d → cards.new ≡ marked identifier.now (entries d) cards.old }
{
    for card in cards.iter_mut() {
        if points_to(file, *card, identifier) {
            card.state = State::Voided;
        }
    }
}
