// The rules that the lines of a file keep whatever the book is: each is asked of the whole file before the next, in one pass.
ghost use Rattle.model.specs.Characters.{Clean};
ghost use Rattle.model.specs.Refusals.{Short};
ghost use Rattle.lines.specs.Counts.{Checks};

use crate::cursor::Cursor;
use crate::fault::LineFault;
use crate::notes::{Scan, look};
use crate::steps::NoLine;
use model::Place;

// How many lines a file has, how many of them want a card since they continue none, and its deepest level.
#[derive(Clone, Copy, PartialEq, Eq, Debug)]
pub struct Counts {
    pub lines: u32,
    pub cards: u32,
    pub deepest: u8,
}

// Whether the lines keep the rules.
fn scan(file: &[u8]) -> Result<Counts, LineFault>
    requires short { Short file.now }
    requires clean { Clean file.now }
    ensures { Checks file.now result }
{
    let mut cursor = Cursor::new(file);
    let mut scan = Scan::new();
    // no `for`, since the end and bytes that are no line are told apart; a `match`, since of the latter the place is told
    loop {
        match cursor.step() {
            Ok(Some(found)) => scan = scan.after(look(found.line), found.byte as u32),
            Ok(None) => break,
            Err(NoLine) => return Err(LineFault::NoLine(Place {
                line: scan.lines + 1,
                byte: cursor.at as u32,
            })),
        }
    }
    if scan.lines == 0 {
        return Err(LineFault::NoLine(Place {
            line: 1,
            byte: cursor.at as u32,
        }));
    }
    scan.verdict()?;
    Ok(Counts {
        lines: scan.lines,
        cards: scan.cards,
        deepest: scan.deepest,
    })
}

// Whether a file keeps the rules of the characters and of the lines.
pub fn check(file: &[u8]) -> Result<Counts, LineFault>
    ensures { Checks file.now result }
{
    characters::check(file)?;
    scan(file)
}
