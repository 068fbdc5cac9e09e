// The removal of a structure from the tree that a drawer holds.
ghost use Rattle.std.specs.Prelude.{◌≡◌};
ghost use Rattle.model.specs.Datasets.{Dataset};
ghost use Rattle.model.specs.Calls.{Event, Removing};
ghost use Rattle.removing.specs.Entering.{EnteredAs};
ghost use Rattle.removing.specs.Planning.{PlansFor, Plans};
ghost use Rattle.removing.specs.Answering.{remove_answer};

use crate::belonging::keeps_rules;
use crate::entering::enter;
use books::Book;
use editing::{apply, edit};
use judging::Entries;
use model::{Card, Edit, MOST, Refusal};
use naming::UNNAMED;
use reading::Entered;

// What the removal of a card does to the entered cards, or why it is refused. The book comes first, since what a removal
// does is settled only for a tree that keeps its rules.
fn plan_entered<B: Book>(
    entered: Entered<'_, '_, '_>,
    book: &B,
    card: usize,
) -> Result<Edit, Refusal>
    ensures { (d : Dataset) → EnteredAs entered.entry d → PlansFor (B.meaning book.now) d card result }
{
    if !keeps_rules(entered, book) {
        return Err(Refusal::Foreign);
    }
    // the header's card is the first, and the trailer's is not counted
    if !(1..entered.count()).contains(&card) {
        return Err(Refusal::Fixed);
    }
    match edit(book, &entered, card) {
        Edit::Withheld => Err(Refusal::Held),
        planned => Ok(planned),
    }
}

fn plan<B: Book>(file: &[u8], drawer: &[Card], book: &B, card: usize) -> Result<Edit, Refusal>
    ensures { Plans (B.meaning book.now) file.now drawer.now card result }
{
    let mut table = [UNNAMED; MOST];
    let entered = enter(file, drawer, &mut table).ok_or(Refusal::Unheld)?;
    plan_entered(entered, book, card)
}

// Removes the structure of a card, with all below it, from the tree that a drawer holds, and answers how many cards went:
// the others close up, and the end of the drawer is blank. What the book requires stays without content, what is left
// bare goes too, and pointers to a record that went become void. Refused, it changes no card.
pub fn remove<B: Book>(
    file: &[u8],
    drawer: &mut [Card],
    book: &B,
    card: usize,
) -> Result<usize, Refusal>
    ensures removes { (e : Event) → e.answer ≡ remove_answer result → e.left ≡ e.buffer → Removing (B.meaning book.now) file.now drawer.old card e drawer.new }
{
    let edit = plan(file, drawer, book, card)?;
    Ok(apply(file, drawer, edit))
}
