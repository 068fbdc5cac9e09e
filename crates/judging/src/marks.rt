// Each card is marked with its level and its row, for the rules behind the first.
ghost use Rattle.std.specs.Prelude.{◌≡◌, ℕ, ◌<◌, ◌≤◌, List, length};
ghost use Rattle.std.specs.Result.{IsOk, result_err};
ghost use Rattle.model.specs.Datasets.{Entry};
ghost use Rattle.model.specs.Positions.{Levelled, level_at};
ghost use Rattle.judging.specs.Entries.{Judgeable};
ghost use Rattle.judging.specs.Marks.{RowsOf, AllSmall};

use crate::entries::Entries;
use books::Book;
use model::{Context, Row};

// What is noted of a card: its level and its row in the book.
#[derive(Clone, Copy)]
pub struct Mark {
    pub level: u8,
    pub row: Row,
}

impl Mark {
    // Of a card that is not marked yet.
    pub const BLANK: Mark = Mark {
        level: 0,
        row: Row {
            typed: 0,
            required: false,
            many: false,
        },
    };
}

const DEEPEST: u8 = 63;

// The level of a card, cut at the deepest that a tree has.
fn level_of<E: Entries>(entries: &E, i: usize) -> u8
    ensures shallow { result ≤ 63 }
    ensures level { (b : List Entry) → E.shows entries.now b → Levelled b → i < length b → result ≡ level_at b i }
{
    entries.level(i).min(DEEPEST)
}

// Marks every card, or tells the first whose tag has no row.
pub fn mark_all<B: Book, E: Entries>(book: &B, entries: &E, marks: &mut [Mark]) -> Result<(), usize>
    ensures rows { (b : List Entry) → E.shows entries.now b → Judgeable b → length b ≡ length marks.old → RowsOf (B.meaning book.now) b marks.new (result_err result) }
    ensures small { IsOk result → AllSmall marks.new }
{
    // of each level that is open
    let mut contexts = [Context::Top; 65];
    for (i, mark) in marks.iter_mut().enumerate() {
        let level = level_of(entries, i);
        let row = book.row(contexts[level as usize], entries.tag(i)).ok_or(i)?;
        *mark = Mark { level, row };
        contexts[level as usize + 1] = Context::Under(row.typed);
    }
    Ok(())
}
