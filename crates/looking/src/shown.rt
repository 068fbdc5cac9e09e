// The line that a card stands for. Where no line begins at its byte, a level of 0, an empty tag, no content and the place
// nowhere are made up: nothing is said of them there, and a public function that could not fail still cannot.
ghost use Rattle.std.specs.Prelude.{◌≡◌, ℕ, Decides};
ghost use Rattle.model.specs.Datasets.{CONT as continuation};
ghost use Rattle.model.specs.Refusals.{Short};
ghost use Rattle.looking.specs.Looking.{CursorAt, LineAt, ContinuedAt, PlaceAt, LevelOf, TagOf, IdentifierOf, ContinuesNext, ContentBehind, ContentAt, ContentOf};

use characters::LIMIT;
use kinds::Content;
use lines::{CONT, Cursor, Line, Payload};
use model::{Card, Place, State};

// Whether a line continues the text of the one before it.
pub fn is_continuation(line: Line<'_>) -> bool
    ensures { Decides result (line.entry.tag.now ≡ continuation) }
{
    line.tag == CONT
}

// A cursor before the line that begins at a byte.
pub fn cursor_at(file: &[u8], byte: usize) -> Option<Cursor<'_>>
    ensures { CursorAt file.now byte result }
{
    let rest = file.get(byte..)?;
    Some(Cursor::new(rest))
}

// The line that begins at a byte. Where none begins there, the answer says nothing.
pub fn line_at(file: &[u8], byte: usize) -> Option<Line<'_>>
    ensures { LineAt file.now byte result }
{
    let found = cursor_at(file, byte)?.next()?;
    Some(found.line)
}

// Whether the line that a cursor comes to next continues the one before it.
fn next_continues(cursor: &mut Cursor<'_>) -> bool
    ensures { ContinuesNext cursor.old.file.now cursor.old.at result }
{
    cursor.next().is_some_and(|next| is_continuation(next.line))
}

// Whether the line behind the one that begins at a byte continues it.
pub fn is_continued(file: &[u8], byte: usize) -> bool
    ensures { ContinuedAt file.now byte result }
{
    let Some(mut cursor) = cursor_at(file, byte) else {
        return false;
    };
    cursor.next().is_some() && next_continues(&mut cursor)
}

fn place_in(file: &[u8], byte: usize) -> Place
    requires { Short file.now }
    ensures { PlaceAt file.now byte result }
{
    // a loop: with find and map_or the bounds of the two casts were not proved
    for found in Cursor::new(file) {
        if found.byte == byte {
            return Place {
                line: found.number as u32,
                byte: found.byte as u32,
            };
        }
    }
    Place::NOWHERE
}

// The number and the byte of the line that begins at a byte.
pub fn place_at(file: &[u8], byte: usize) -> Place
    ensures { PlaceAt file.now byte result }
{
    if file.len() > LIMIT {
        return Place::NOWHERE;
    }
    place_in(file, byte)
}

// The level of a card's line, counted up to 100.
pub fn level_of(file: &[u8], card: Card) -> u8
    ensures { LevelOf file.now card result }
{
    line_at(file, card.byte as usize).map_or(0, |line| line.level)
}

pub fn tag_of(file: &[u8], card: Card) -> &[u8]
    ensures { TagOf file.now card result.now }
{
    line_at(file, card.byte as usize).map_or(b"", |line| line.tag)
}

pub fn identifier_of(file: &[u8], card: Card) -> Option<&[u8]>
    ensures { IdentifierOf file.now card result }
{
    line_at(file, card.byte as usize)?.identifier
}

// The payload of a line, with a cursor behind it. The next line is read only where it may continue a text.
fn content_behind<'a>(payload: Payload<'a>, cursor: &mut Cursor<'_>) -> Content<'a>
    ensures { ContentBehind payload.entry cursor.old.file.now cursor.old.at result }
{
    match payload {
        Payload::Void => Content::Void,
        Payload::Pointer(pointer) => Content::Pointer(pointer),
        Payload::None => if next_continues(cursor) {
            Content::Lines
        } else {
            Content::Nothing
        },
        Payload::Text(text) => if next_continues(cursor) {
            Content::Lines
        } else {
            Content::Line(text)
        },
    }
}

fn filed_content(file: &[u8], byte: usize) -> Content<'_>
    ensures { ContentAt file.now byte result }
{
    let Some(mut cursor) = cursor_at(file, byte) else {
        return Content::Nothing;
    };
    // a match: with map_or what the closure says of the cursor that it moves was not proved
    match cursor.next() {
        Some(own) => content_behind(own.line.payload, &mut cursor),
        None => Content::Nothing,
    }
}

// What the card's state leaves of its payload.
pub fn content_of(file: &[u8], card: Card) -> Content<'_>
    ensures { ContentOf file.now card result }
{
    match card.state {
        State::Voided => Content::Void,
        State::Emptied => Content::Nothing,
        State::Filed | State::Blank => filed_content(file, card.byte as usize),
    }
}
