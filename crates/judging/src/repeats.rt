// The rule that a structure follows none of its type, unless many may stand there.
ghost use Rattle.std.specs.Result.{result_err};
ghost use Rattle.model.specs.Refusals.{single};
ghost use Rattle.judging.specs.CardRules.{Answers};

use crate::cards::Cards;
use crate::entries::Entries;
use crate::finding::{Finding, Rule};
use crate::sets::Sets;
use books::Book;

impl<B: Book, E: Entries> Cards<'_, B, E> {
    // Whether no card follows one of its type under its superstructure where only one may stand; if one does, the first is
    // told.
    pub fn check_repeats(&self) -> Result<(), Finding>
        ensures { Answers (B.meaning self.now.book.now) (E.shows self.now.entries.now) self.now.marks.now single (result_err result) }
    {
        let mut seen = Sets::new();
        for (i, mark) in self.marks.iter().enumerate() {
            let level = mark.level as usize;
            if !mark.row.many && seen.has(level, mark.row.typed) {
                return Err(Finding {
                    rule: Rule::Single,
                    card: i,
                });
            }
            seen.turn(level, mark.row.typed);
        }
        Ok(())
    }
}
