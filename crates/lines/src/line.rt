// What one line says.
ghost use Rattle.std.specs.Prelude.{◌≡◌};
ghost use Rattle.model.specs.LineTurns.{is_pointer};
ghost use Rattle.model.specs.Scan.{read_payload, read_value};
ghost use Rattle.lines.specs.Shown.{value_of, ReadsIdentifier, ReadsValue, PointsTo, Parsed, Spelled};

use crate::part::{read_level, read_marked, read_space, read_tag};

// The tag of the header, which is the first line of a file.
pub const HEAD: &[u8] = b"HEAD";

// The tag of the trailer, which is the last.
pub const TRLR: &[u8] = b"TRLR";

// The tag of a line that continues a text.
pub const CONT: &[u8] = b"CONT";

// A tag that joined lines in earlier releases, and that no line may have.
pub const CONC: &[u8] = b"CONC";

// The pointer to no record.
pub const VOID: &[u8] = b"@VOID@";

// What stands behind a line's tag; nothing is one of the four cases, and no Option, since a rule asks which of them it is. The
// parts are of the file: a pointer has both of its @, and a text that begins with a doubled @ shows the second of them on.
#[derive(Clone, Copy)]
pub enum Payload<'a> {
    None,
    Void,
    Pointer(&'a [u8]),
    Text(&'a [u8]),
}

impl Payload<'_> {
    // Whether it points to a record, or to none by name.
    pub fn is_pointer(self) -> bool
        ensures { result ≡ is_pointer (value_of self.entry) }
    {
        matches!(self, Payload::Void | Payload::Pointer(_))
    }
}

// One line, its end aside. Its level is counted up to 100, since every level above 63 is refused alike.
#[derive(Clone, Copy)]
pub struct Line<'a> {
    pub level: u8,
    pub identifier: Option<&'a [u8]>,
    pub tag: &'a [u8],
    pub payload: Payload<'a>,
}

// The identifier and the space behind it, where the part begins with @, and what follows.
fn read_identifier(bytes: &[u8]) -> Option<(Option<&[u8]>, &[u8])>
    ensures { ReadsIdentifier bytes.now result }
{
    match bytes {
        [b'@', ..] => {
            let (identifier, rest) = read_marked(bytes)?;
            if identifier == VOID {
                return None;
            }
            Some((Some(identifier), read_space(rest)?))
        }
        _ => Some((None, bytes)),
    }
}

// A pointer that ends the line, where the part begins with one @.
fn read_pointer(bytes: &[u8]) -> Option<Payload<'_>>
    ensures { PointsTo bytes.now result }
{
    let (pointer, rest) = read_marked(bytes)?;
    if !rest.is_empty() {
        return None;
    }
    if pointer == VOID {
        Some(Payload::Void)
    } else {
        Some(Payload::Pointer(pointer))
    }
}

// What stands behind the space: a pointer, or a text that is not empty and whose first @ is doubled.
fn read_text(bytes: &[u8]) -> Option<Payload<'_>>
    ensures { ReadsValue read_payload bytes.now result }
{
    match bytes {
        [] => None,
        [b'@', text @ ..] if text.starts_with(b"@") => Some(Payload::Text(text)),
        [b'@', ..] => read_pointer(bytes),
        text => Some(Payload::Text(text)),
    }
}

// What stands behind the tag: nothing, or a space and a value.
fn read_after_tag(bytes: &[u8]) -> Option<Payload<'_>>
    ensures { ReadsValue read_value bytes.now result }
{
    match bytes {
        [] => Some(Payload::None),
        [b' ', value @ ..] => read_text(value),
        _ => None,
    }
}

// The line that the bytes spell, its end not among them, or none where they spell none.
pub fn parse(bytes: &[u8]) -> Option<Line<'_>>
    ensures parsed { Parsed bytes.now result }
    ensures spelled { Spelled bytes.now result }
{
    let (level, rest) = read_level(bytes)?;
    let rest = read_space(rest)?;
    let (identifier, rest) = read_identifier(rest)?;
    let (tag, rest) = read_tag(rest)?;
    let payload = read_after_tag(rest)?;
    Some(Line {
        level,
        identifier,
        tag,
        payload,
    })
}
