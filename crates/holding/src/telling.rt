// What a drawer holds.
ghost use Rattle.std.specs.Prelude.{length};
ghost use Rattle.holding.specs.Holding.{Fronts, Tells};

use crate::fitting::fits;
use crate::front::{are_blank, count_named};
use crate::standing::on_lines;
use lines::check;
use model::{Card, MOST};
use naming::{Named, check_names};

// The cards of a drawer that name lines, and how much of the front of the table that the caller lent is the index of their
// identifiers: a count, for the reason at `check_names`.
#[derive(Clone, Copy, PartialEq, Eq, Debug)]
pub struct Kept<'c> {
    pub cards: &'c [Card],
    pub names: usize,
}

// The cards that name lines of the file, if they fit one another and the others are blank.
fn held_cards<'c>(file: &[u8], drawer: &'c [Card]) -> Option<&'c [Card]>
    ensures { Fronts file.now drawer.now result }
{
    check(file).ok()?;
    let count = count_named(drawer);
    let (cards, rest) = drawer.split_at(count);
    if count > MOST || !are_blank(rest) || !on_lines(file, cards) || !fits(file, cards) {
        return None;
    }
    Some(cards)
}

// What a drawer holds of a file, for any cards whatever, if that is a dataset. The table has to be as long as the cards
// that a drawer may hold.
pub fn held<'f, 'c>(file: &'f [u8], drawer: &'c [Card], table: &mut [Named<'f>]) -> Option<Kept<'c>>
    ensures { Tells file.now drawer.now (length table.old) result table.new }
{
    let cards = held_cards(file, drawer)?;
    if cards.len() > table.len() {
        return None;
    }
    let names = check_names(file, cards, table).ok()?;
    Some(Kept { cards, names })
}
