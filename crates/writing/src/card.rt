// What is written of a card, and how much that is.
ghost use Rattle.std.specs.Prelude.{◌≡◌, ℕ, ◌+◌, ◌≤◌, List, [], ◌∷◌, ◌++◌, length};
ghost use Rattle.model.specs.Lines.{VOID as void_bytes};
ghost use Rattle.model.specs.Datasets.{Entry, continuations, with_line_feeds};
ghost use Rattle.looking.specs.Looking.{Shown};
ghost use Rattle.writing.specs.Written.{Adds, card_bytes};
ghost use Rattle.writing.specs.Own.{Trails};

use crate::continued::{cursor_at, next_continuation};
use crate::copying::{put, put_line};
use crate::head::head;
use lines::{Cursor, VOID};
use model::{Card, State};

// How many bytes the lines that continue a text take.
fn continued_size(behind: Cursor<'_>) -> usize
    ensures size { (level : ℕ) (texts : List (List ℕ)) → Trails behind.entry.file.now behind.entry.at level texts → result ≡ length (with_line_feeds (continuations level texts)) }
    ensures bound { behind.entry.at + result ≤ length behind.entry.file.now }
{
    // a loop: with take_while, map and sum the bound of the sum was not proved
    let mut cursor = behind;
    let mut size = 0;
    while let Some(line) = next_continuation(&mut cursor) {
        size += line.len() + 1;
    }
    size
}

// How many bytes are written of a card: 0 where it has no line, of which nothing is said, since a public function that could
// not fail still cannot.
pub fn card_size(file: &[u8], card: Card) -> usize
    ensures size { (e : Entry) → Shown file.now card e → result ≡ length (card_bytes e) }
    ensures bound { result ≤ length file.now + 8 }
{
    let mut cursor = cursor_at(file, card.byte as usize);
    let Some(own) = cursor.next() else {
        return 0;
    };
    match card.state {
        State::Voided => head(own).len() + 1 + VOID.len() + 1,
        State::Emptied => head(own).len() + 1,
        State::Filed | State::Blank => own.bytes.len() + 1 + continued_size(cursor),
    }
}

fn put_continued(buffer: &mut [u8], at: usize, behind: Cursor<'_>) -> usize
    ensures { (level : ℕ) (texts : List (List ℕ)) → Trails behind.entry.file.now behind.entry.at level texts → Adds buffer.old at (with_line_feeds (continuations level texts)) result buffer.new }
{
    // a loop: with take_while and fold what the buffer holds in the end was not proved
    let mut cursor = behind;
    let mut end = at;
    while let Some(line) = next_continuation(&mut cursor) {
        end = put_line(buffer, end, line);
    }
    end
}

// A pointer that became void, and the end of its line.
fn put_void(buffer: &mut [u8], at: usize) -> usize
    ensures { Adds buffer.old at (32 ∷ void_bytes ++ 10 ∷ []) result buffer.new }
{
    let end = put(buffer, at, b" ");
    put_line(buffer, end, VOID)
}

// Writes a card to a place of the buffer, and answers where it ends: at that place where it has no line, of which nothing is
// said, since a public function that could not fail still cannot.
pub fn write_card(file: &[u8], card: Card, buffer: &mut [u8], at: usize) -> usize
    ensures { (e : Entry) → Shown file.now card e → Adds buffer.old at (card_bytes e) result buffer.new }
{
    let mut cursor = cursor_at(file, card.byte as usize);
    let Some(own) = cursor.next() else {
        return at;
    };
    match card.state {
        State::Voided => {
            let end = put(buffer, at, head(own));
            put_void(buffer, end)
        }
        State::Emptied => put_line(buffer, at, head(own)),
        State::Filed | State::Blank => {
            let end = put_line(buffer, at, own.bytes);
            put_continued(buffer, end, cursor)
        }
    }
}
