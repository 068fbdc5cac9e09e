// A line without its payload.
ghost use Rattle.std.specs.Prelude.{◌≡◌, ◌-◌, ◌≤◌, length};
ghost use Rattle.model.specs.Lines.{spell_value};
ghost use Rattle.lines.specs.Shown.{value_of};
ghost use Rattle.writing.specs.Own.{HeadOf};

use lines::{Found, Payload, VOID};

// How long a line of a length is without its payload and the space before it. A text that begins with @ has two of them.
fn without_payload(long: usize, payload: Payload<'_>) -> usize
    ensures { result ≡ long - length (spell_value (value_of payload.entry)) }
{
    match payload {
        Payload::None => long,
        Payload::Void => long.saturating_sub(VOID.len() + 1),
        Payload::Pointer(pointer) => long.saturating_sub(pointer.len()).saturating_sub(1),
        Payload::Text(text) => {
            let marks = if text.starts_with(b"@") { 2 } else { 1 };
            long.saturating_sub(text.len()).saturating_sub(marks)
        }
    }
}

// A line up to the end of its tag.
pub fn head<'a>(found: Found<'a>) -> &'a [u8]
    ensures head { HeadOf found.entry result.now }
    ensures short { length result.now ≤ length found.entry.bytes.now }
{
    &found.bytes[0..without_payload(found.bytes.len(), found.line.payload)]
}
