// The cards that name lines stand at the front of a drawer.
ghost use Rattle.std.specs.Prelude.{Decides};
ghost use Rattle.model.specs.Cards.{Blanks};
ghost use Rattle.holding.specs.Standing.{NamedFront};

use model::{Card, State};

// How many cards stand before the first one that names no line.
pub fn count_named(drawer: &[Card]) -> usize
    ensures { NamedFront drawer.now result }
{
    drawer
        .iter()
        .take_while(|card| card.state != State::Blank)
        .count()
}

// Whether every card is blank. One that names no line and has a byte is not.
pub fn are_blank(cards: &[Card]) -> bool
    ensures { Decides result (Blanks cards.now) }
{
    cards.iter().all(|card| *card == Card::BLANK)
}
