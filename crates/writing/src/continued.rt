// The line of a card and those that continue it.
ghost use Rattle.std.specs.Prelude.{◌≡◌, ◌≤◌, length};
ghost use Rattle.writing.specs.Own.{BeforeAt, GoesOn, Advances};

use lines::Cursor;
use looking::is_continuation;

// A cursor before the line that begins at a byte, and at the end where that is past the file: that of `looking` is an Option
// for such a byte, so with it each of the two callers would have two guards in the place of one.
pub fn cursor_at(file: &[u8], byte: usize) -> Cursor<'_>
    ensures before { BeforeAt file.now byte result.file.now result.at }
    ensures short { length result.file.now ≤ length file.now }
{
    Cursor::new(&file[byte.min(file.len())..])
}

// The bytes of the next line, if it continues the text.
pub fn next_continuation<'a>(cursor: &mut Cursor<'a>) -> Option<&'a [u8]>
    ensures file { cursor.new.file.now ≡ cursor.old.file.now }
    ensures goes { GoesOn cursor.old.file.now cursor.old.at cursor.new.at result }
    ensures advances { Advances cursor.old.at cursor.new.at result }
{
    let found = cursor.next()?;
    is_continuation(found.line).then_some(found.bytes)
}
