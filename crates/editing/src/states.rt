// The state of a card that loses its payload.
ghost use Rattle.std.specs.Prelude.{◌≡◌, ◌<◌, length, slice_index_or, slice_set};
ghost use Rattle.model.specs.Datasets.{Entry};
ghost use Rattle.model.specs.Edits.{emptied_state, emptied_card, no_card};
ghost use Rattle.lines.specs.Shown.{value_of};
ghost use Rattle.looking.specs.Looking.{Shown};
ghost use Rattle.editing.specs.Showing.{emptied_value};

use lines::Payload;
use looking::line_at;
use model::{Card, State};

fn state_without(payload: Payload<'_>) -> State
    ensures { result ≡ emptied_value (value_of payload.entry) }
{
    if payload.is_pointer() {
        State::Voided
    } else {
        State::Emptied
    }
}

// A pointer becomes void, and any other payload goes.
fn emptied(file: &[u8], card: Card) -> State
    ensures { (e : Entry) → Shown file.now card e → result ≡ emptied_state e.payload }
{
    match card.state {
        State::Filed => line_at(file, card.byte as usize).map_or(
            State::Emptied,
            |line| state_without(line.payload),
        ),
        state => state,
    }
}

// Takes the payload from the card at a place.
pub fn clear(file: &[u8], cards: &mut [Card], place: usize)
    requires { place < length cards.old }
    ensures { (e : Entry) → Shown file.now (slice_index_or cards.old place no_card) e → cards.new ≡ slice_set cards.old place (emptied_card e.payload (slice_index_or cards.old place no_card)) }
{
    cards[place].state = emptied(file, cards[place]);
}
