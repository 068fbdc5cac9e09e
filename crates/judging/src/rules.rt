ghost use Rattle.std.specs.Prelude.{◌≡◌, List, length};
ghost use Rattle.std.specs.Result.{result_err};
ghost use Rattle.model.specs.Datasets.{Entry};
ghost use Rattle.judging.specs.Findings.{Judged};
ghost use Rattle.judging.specs.Entries.{Judgeable};
ghost use Rattle.judging.specs.Marks.{Marked};

use crate::cards::Cards;
use crate::entries::Entries;
use crate::finding::{Finding, Rule};
use crate::marks::{Mark, mark_all};
use books::Book;
use model::MOST;

impl<B: Book, E: Entries> Cards<'_, B, E> {
    // Each rule is asked of every card before the next.
    fn check(&self) -> Result<(), Finding>
        ensures { (b : List Entry) → E.shows self.now.entries.now b → Marked (B.meaning self.now.book.now) b self.now.marks.now → Judged (B.meaning self.now.book.now) b (result_err result) }
    {
        self.check_each(Rule::Taken, |i| self.is_taken(i))?;
        self.check_each(Rule::Aimed, |i| self.is_aimed(i))?;
        self.check_repeats()?;
        self.check_needs()?;
        self.check_each(Rule::Filled, |i| self.is_filled(i))
    }
}

// Every card is marked before the other rules are asked. The book and the entries are parameters only until `Cards` holds them
// with the marks; that the entries can be judged stays a premise, since `shows` is a relation.
fn judge_with<B: Book, E: Entries>(book: &B, entries: &E, marks: &mut [Mark]) -> Result<(), Finding>
    ensures { (b : List Entry) → E.shows entries.now b → Judgeable b → length b ≡ length marks.old → Judged (B.meaning book.now) b (result_err result) }
{
    mark_all(book, entries, marks).map_err(|card| Finding {
        rule: Rule::Known,
        card,
    })?;
    let cards = Cards {
        book,
        entries,
        marks,
    };
    cards.check()
}

// Whether every card keeps every rule of the book; if not, the lowest rule that is broken is told, and the first card that
// breaks it.
pub fn judge<B: Book, E: Entries>(book: &B, entries: &E) -> Result<(), Finding>
    ensures { (b : List Entry) → E.shows entries.now b → Judgeable b → Judged (B.meaning book.now) b (result_err result) }
{
    // as many marks as a drawer may have cards, of which a part is used: no heap in the eight calls
    let mut marks = [Mark::BLANK; MOST];
    let count = entries.count().min(MOST);
    judge_with(book, entries, &mut marks[0..count])
}
