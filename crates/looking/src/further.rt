// The further lines of a card's text.
ghost use Rattle.std.specs.Prelude.{◌≡◌};
ghost use Rattle.looking.specs.Looking.{FurtherAt, text_in};

use crate::shown::{cursor_at, is_continuation};
use lines::Payload;

fn text_in(payload: Payload<'_>) -> &[u8]
    ensures { result.now ≡ text_in payload.entry }
{
    match payload {
        Payload::Text(text) => text,
        Payload::None | Payload::Void | Payload::Pointer(_) => b"",
    }
}

// The line `number` of those that continue the one at a byte, from 0, or none if there are no so many.
pub fn further_at(file: &[u8], byte: usize, number: usize) -> Option<&[u8]>
    ensures { FurtherAt file.now byte number result }
{
    let mut cursor = cursor_at(file, byte)?;
    // past the line at the byte
    cursor.next()?;
    let found = cursor
        .take_while(|found| is_continuation(found.line))
        .nth(number)?;
    Some(text_in(found.line.payload))
}
