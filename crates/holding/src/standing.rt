// Whether cards name lines of a file, in their order.
ghost use Rattle.std.specs.Prelude.{List, Decides};
ghost use Rattle.model.specs.Files.{Placed, Lined};
ghost use Rattle.holding.specs.Standing.{OnLines};
ghost use Rattle.holding.specs.Matching.{IsCardOf};

use lines::{Cursor, Found};
use looking::is_continuation;
use model::Card;

// Whether a card is that of a line, and the line continues none.
fn is_card_of(card: Card, found: Found<'_>) -> bool
    ensures { Decides result (IsCardOf card found.entry) }
{
    card.byte as usize == found.byte && !is_continuation(found.line)
}

// Whether each card names a line that continues none, in the order of the lines.
pub fn on_lines(file: &[u8], cards: &[Card]) -> bool
    ensures { (ps : List Placed) → Lined file.now ps → Decides result (OnLines ps cards.now) }
{
    // the cards whose lines are still to come
    let mut rest = cards;
    for found in Cursor::new(file) {
        if let Some((card, behind)) = rest.split_first() {
            if is_card_of(*card, found) {
                rest = behind;
            }
        }
    }
    rest.is_empty()
}
