// The cards of a tree with the book that judges them, and the rules that ask of one card at a time.
ghost use Rattle.std.specs.Prelude.{◌≡◌, ℕ, ◌<◌, Bool, List, length, Decides, None};
ghost use Rattle.std.specs.Result.{result_err};
ghost use Rattle.model.specs.Datasets.{Entry};
ghost use Rattle.model.specs.Refusals.{BookRule, taken, aimed_right, filled, book_rule_number};
ghost use Rattle.model.specs.Positions.{LeafAt, BareAt};
ghost use Rattle.judging.specs.Findings.{rule_number, missing_type};
ghost use Rattle.judging.specs.Marks.{Marked, AllSmall};
ghost use Rattle.judging.specs.CardRules.{Tests, Answers};

use crate::entries::Entries;
use crate::finding::{Finding, Rule};
use crate::marks::Mark;
use books::Book;
use kinds::{Content, may_be_emptied, takes};
use model::Kind;

// The cards of a tree, each marked. Which entries they are of stays a premise, since `shows` is a relation, and a ghost field
// holds no list.
#[derive(Drop)]
pub struct Cards<'a, B, E> {
    pub book: &'a B,
    pub entries: &'a E,
    pub marks: &'a [Mark],
    pub ghost small: { AllSmall marks.now },
}

// Each rule takes an index, which `check_each` hands out, and asks of it itself that it is of a card: a rule looks at the
// cards beside it too, so a struct of an index and its bound would be made at each step and be no plainer.
impl<B: Book, E: Entries> Cards<'_, B, E> {
    // Whether the payload is of its kind.
    pub fn is_taken(&self, i: usize) -> bool
        requires { i < length self.now.marks.now }
        ensures { Tests (B.meaning self.now.book.now) (E.shows self.now.entries.now) self.now.marks.now taken i result }
    {
        let kind = self.book.kind(self.marks[i].row.typed);
        takes(self.book, kind, self.entries.content(i))
    }

    // Whether a pointer of a pointer kind names a record of the type that the kind asks for.
    pub fn is_aimed(&self, i: usize) -> bool
        requires { i < length self.now.marks.now }
        ensures { Tests (B.meaning self.now.book.now) (E.shows self.now.entries.now) self.now.marks.now aimed_right i result }
    {
        let Kind::Pointer(typed) = self.book.kind(self.marks[i].row.typed) else {
            return true;
        };
        self.entries.target(i).is_none_or(|named| {
            self.marks
                .get(named)
                .is_some_and(|mark| mark.row.typed == typed)
        })
    }

    // Whether no card stands below this one.
    fn is_leaf(&self, i: usize) -> bool
        requires { i < length self.now.marks.now }
        ensures { (b : List Entry) → Marked (B.meaning self.now.book.now) b self.now.marks.now → Decides result (LeafAt b i) }
    {
        let level = self.marks[i].level;
        self.marks.get(i + 1).is_none_or(|next| next.level <= level)
    }

    // Whether a card has neither payload nor substructure.
    fn is_bare(&self, i: usize) -> bool
        requires { i < length self.now.marks.now }
        ensures { (b : List Entry) → E.shows self.now.entries.now b → Marked (B.meaning self.now.book.now) b self.now.marks.now → Decides result (BareAt b i) }
    {
        self.is_leaf(i) && matches!(self.entries.content(i), Content::Nothing)
    }

    // Whether a structure other than the header holds something, or is one that may stand empty.
    pub fn is_filled(&self, i: usize) -> bool
        requires { i < length self.now.marks.now }
        ensures { Tests (B.meaning self.now.book.now) (E.shows self.now.entries.now) self.now.marks.now filled i result }
    {
        let row = self.marks[i].row;
        i == 0 || !self.is_bare(i) || row.required && may_be_emptied(self.book.kind(row.typed))
    }

    // Whether every card keeps a rule; if not, the first that does not is told.
    pub fn check_each<F: Fn(usize) -> bool>(&self, rule: Rule, keeps: F) -> Result<(), Finding>
        requires { (i : ℕ) → i < length self.now.marks.now → F.pre keeps i }
        ensures { (asked : BookRule) → rule_number rule ≡ book_rule_number asked → missing_type rule ≡ None → ((i : ℕ) (r : Bool) → i < length self.now.marks.now → F.post keeps i r → Tests (B.meaning self.now.book.now) (E.shows self.now.entries.now) self.now.marks.now asked i r) → Answers (B.meaning self.now.book.now) (E.shows self.now.entries.now) self.now.marks.now asked (result_err result) }
    {
        let broken = (0..self.marks.len()).find(
            |i|
                requires { F.pre keeps i.now }
            { !keeps(*i) },
        );
        match broken {
            Some(card) => Err(Finding { rule, card }),
            None => Ok(()),
        }
    }
}
