// One call of any kind.
ghost use Rattle.model.specs.declared.Call.{Call};
ghost use Rattle.model.specs.Calls.{PerformsEvent};
ghost use Rattle.model.specs.Laws.{Promised};
ghost use Rattle.calls.specs.Answers.{event, DoesQuietly};

use crate::answer::{Answer, Denial};
use crate::viewed::{count_call, look_call, more_call, open_call, size_call, write_call};
use books::Book;
use model::{Call, Card, promises_stand};
use reading::read;
use removing::remove;

fn read_call<'f, B: Book>(
    book: &B,
    file: &'f [u8],
    drawer: &mut [Card],
) -> Result<Answer<'f>, Denial>
    ensures { DoesQuietly (B.meaning book.now) file.now drawer.old Call.Read result drawer.new }
{
    Ok(Answer::Number(read(file, drawer, book)?))
}

fn remove_call<'f, B: Book>(
    book: &B,
    file: &'f [u8],
    drawer: &mut [Card],
    card: usize,
) -> Result<Answer<'f>, Denial>
    ensures { DoesQuietly (B.meaning book.now) file.now drawer.old (Call.Remove card) result drawer.new }
{
    Ok(Answer::Number(remove(file, drawer, book, card)?))
}

// Does one call of any kind to a drawer. Its contract says what the call does, and that over every run of such calls, from
// any reading on, the drawer holds what it should, each answer is true of it, what is written reads back, and what was
// removed leaves no trace.
pub fn perform<'f, B: Book>(
    book: &B,
    file: &'f [u8],
    drawer: &mut [Card],
    buffer: &mut [u8],
    call: Call,
) -> Result<Answer<'f>, Denial>
    ensures performs { PerformsEvent (B.meaning book.now) file.now drawer.old (event call buffer.old result buffer.new) drawer.new }
    ensures promised { Promised PerformsEvent }
{
    promises_stand();
    match call {
        Call::Read => read_call(book, file, drawer),
        Call::Remove(card) => remove_call(book, file, drawer, card),
        Call::Open => open_call(file, drawer),
        Call::Count => count_call(file, drawer),
        Call::Look(card) => look_call(file, drawer, card),
        Call::More(card, number) => more_call(file, drawer, card, number),
        Call::Size => size_call(file, drawer),
        Call::Write => write_call(file, drawer, buffer),
    }
}
