// The rule that each type that is needed under a structure, or at the top, stands there.
ghost use Rattle.std.specs.Prelude.{ℕ, ◌≤◌, List, Option};
ghost use Rattle.std.specs.Result.{result_err};
ghost use Rattle.model.specs.Datasets.{Entry};
ghost use Rattle.model.specs.Refusals.{needed};
ghost use Rattle.model.specs.Positions.{LackIn, LackOf, Ahead};
ghost use Rattle.judging.specs.CardRules.{Answers};
ghost use Rattle.judging.specs.Marks.{Marked};
ghost use Rattle.judging.specs.Sets.{bit, Clear, TypesOf};

use crate::cards::Cards;
use crate::entries::Entries;
use crate::finding::{Finding, Rule};
use crate::sets::Sets;
use books::Book;
use model::Context;

impl<B: Book, E: Entries> Cards<'_, B, E> {
    // The first type that the context needs and that is not in the set of that level.
    fn first_missing(&self, context: Context, sets: &Sets, level: usize) -> Option<u16>
        requires { level ≤ 64 }
        ensures { (ts : List (Option ℕ)) → TypesOf (bit sets.now.levels level) ts → LackIn (B.meaning self.now.book.now) context ts result }
    {
        (0..self.book.needs(context)).find_map(
            |j|
                requires { level ≤ 64 }
            {
                self.book
                    .need(context, j)
                    .filter(|typed| !sets.has(level, *typed))
            },
        )
    }

    // The first card that lacks a type, with that type. The cards are passed from the last to the first, so that what stands
    // below one is known before it comes; the sets end with what stands at the top.
    fn first_lacking(&self, ahead: &mut Sets) -> Option<(usize, u16)>
        requires { Clear ahead.old.levels }
        ensures lacking { (b : List Entry) → Marked (B.meaning self.now.book.now) b self.now.marks.now → LackOf (B.meaning self.now.book.now) b 0 result }
        ensures top { (b : List Entry) → Marked (B.meaning self.now.book.now) b self.now.marks.now → Ahead (B.meaning self.now.book.now) b 1024 0 (bit ahead.new.levels) }
    {
        let mut found = None;
        for (i, mark) in self.marks.iter().enumerate().rev() {
            let level = mark.level as usize;
            let context = Context::Under(mark.row.typed);
            if let Some(typed) = self.first_missing(context, ahead, level + 1) {
                found = Some((i, typed));
            }
            ahead.turn(level, mark.row.typed);
        }
        found
    }

    // Whether every type that is needed stands there; if not, the card that lacks one is told. What is missing at the top
    // comes first, and is told at the header.
    pub fn check_needs(&self) -> Result<(), Finding>
        ensures { Answers (B.meaning self.now.book.now) (E.shows self.now.entries.now) self.now.marks.now needed (result_err result) }
    {
        let mut ahead = Sets::new();
        let lacking = self.first_lacking(&mut ahead);
        let missing = self.first_missing(Context::Top, &ahead, 0);
        match missing.map(|typed| (0, typed)).or(lacking) {
            Some((card, typed)) => Err(Finding {
                rule: Rule::Needed(typed),
                card,
            }),
            None => Ok(()),
        }
    }
}
