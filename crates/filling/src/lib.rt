// A drawer is filled from a file.
#![tactic(auto)]

ghost use Rattle.std.specs.Prelude.{◌^◌, ◌<◌, ◌≤◌, length};
ghost use Rattle.model.specs.Refusals.{Short};
ghost use Rattle.filling.specs.Filling.{BlankFrom, Fills, Puts};

use characters::LIMIT;
use lines::{Cursor, Found};
use looking::is_continuation;
use model::{Card, MOST, Place, State};

// Makes the cards from `from` on blank, so that they name no line.
pub fn blank_from(drawer: &mut [Card], from: usize)
    ensures { BlankFrom from drawer.old drawer.new }
{
    let from = from.min(drawer.len());
    drawer[from..].fill(Card::BLANK);
}

// One line more: its card is put at `count`, unless it continues another. None if no card is left for it. The count stays, and
// no iterator of the free cards takes its place: it is the answer of a filling, and the cards behind it are made blank.
fn put(drawer: &mut [Card], count: usize, found: Found<'_>) -> Option<usize>
    requires { found.byte < 2 ^ 32 }
    ensures { Puts found.entry count drawer.old result drawer.new }
{
    if is_continuation(found.line) {
        return Some(count);
    }
    if count >= drawer.len() || count >= MOST {
        return None;
    }
    drawer[count] = Card {
        byte: found.byte as u32,
        state: State::Filed,
    };
    Some(count + 1)
}

fn fill_short(file: &[u8], drawer: &mut [Card]) -> Result<usize, Place>
    requires { Short file.now }
    ensures { Fills file.now (length drawer.old) result drawer.new }
{
    let mut count = 0;
    for found in Cursor::new(file) {
        match put(drawer, count, found) {
            Some(next) => count = next,
            None => {
                blank_from(drawer, 0);
                return Err(Place {
                    line: found.number as u32,
                    byte: found.byte as u32,
                });
            }
        }
    }
    blank_from(drawer, count);
    Ok(count)
}

// Puts a card for each line that continues none into the drawer, in their order, and makes the cards behind them blank.
// The answer is how many there are; or the place of the first line that finds no card left, and then every card is blank.
// The file is one that keeps the rules of the lines.
pub fn fill(file: &[u8], drawer: &mut [Card]) -> Result<usize, Place>
    ensures { Fills file.now (length drawer.old) result drawer.new }
{
    if file.len() > LIMIT {
        // nothing is said of a longer file
        blank_from(drawer, 0);
        return Ok(0);
    }
    fill_short(file, drawer)
}
