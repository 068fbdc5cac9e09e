// The calls of a view, each with a view that is opened for it. Where that is refused, the refusal is the answer. Each is a
// function of its own, since a closure for what is asked of the view would be no shorter.
ghost use Rattle.model.specs.Books.{Meaning};
ghost use Rattle.model.specs.declared.Call.{Call};
ghost use Rattle.model.specs.Calls.{Performs};
ghost use Rattle.calls.specs.Answers.{event, DoesQuietly};

use crate::answer::{Answer, Denial};
use model::{Call, Card};
use viewing::open;

// Whether a view can be opened.
pub fn open_call<'f>(file: &'f [u8], drawer: &[Card]) -> Result<Answer<'f>, Denial>
    ensures { (m : Meaning) → DoesQuietly m file.now drawer.now Call.Open result drawer.now }
{
    open(file, drawer)?;
    Ok(Answer::Opened)
}

pub fn count_call<'f>(file: &'f [u8], drawer: &[Card]) -> Result<Answer<'f>, Denial>
    ensures { (m : Meaning) → DoesQuietly m file.now drawer.now Call.Count result drawer.now }
{
    let view = open(file, drawer)?;
    Ok(Answer::Number(view.count()))
}

pub fn size_call<'f>(file: &'f [u8], drawer: &[Card]) -> Result<Answer<'f>, Denial>
    ensures { (m : Meaning) → DoesQuietly m file.now drawer.now Call.Size result drawer.now }
{
    let view = open(file, drawer)?;
    Ok(Answer::Number(view.size()))
}

pub fn look_call<'f>(file: &'f [u8], drawer: &[Card], card: usize) -> Result<Answer<'f>, Denial>
    ensures { (m : Meaning) → DoesQuietly m file.now drawer.now (Call.Look card) result drawer.now }
{
    let view = open(file, drawer)?;
    Ok(Answer::Seen(view.look(card)?))
}

pub fn more_call<'f>(
    file: &'f [u8],
    drawer: &[Card],
    card: usize,
    number: usize,
) -> Result<Answer<'f>, Denial>
    ensures { (m : Meaning) → DoesQuietly m file.now drawer.now (Call.More card number) result drawer.now }
{
    let view = open(file, drawer)?;
    Ok(Answer::Line(view.more(card, number)?))
}

pub fn write_call<'f>(
    file: &'f [u8],
    drawer: &[Card],
    buffer: &mut [u8],
) -> Result<Answer<'f>, Denial>
    ensures { (m : Meaning) → Performs m file.now drawer.now (event Call.Write buffer.old result buffer.new) drawer.now Call.Write }
{
    let view = open(file, drawer)?;
    Ok(Answer::Number(view.write(buffer)?))
}
