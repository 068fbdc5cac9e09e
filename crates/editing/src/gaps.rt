// Cards that go.
ghost use Rattle.std.specs.Prelude.{◌≡◌, ◌-◌, ◌≤◌, ◌++◌, length, replicate};
ghost use Rattle.model.specs.Cards.{blank};
ghost use Rattle.model.specs.Edits.{without};

use model::Card;

// Takes out the cards from one position up to another: those behind them move up, and blank ones fill the end.
pub fn delete(cards: &mut [Card], from: usize, to: usize)
    requires ordered { from ≤ to }
    requires inside { to ≤ length cards.old }
    ensures { cards.new ≡ without from to cards.old ++ replicate (to - from) blank }
{
    let end = cards.len() - (to - from);
    cards.copy_within(to.., from);
    cards[end..].fill(Card::BLANK);
}
