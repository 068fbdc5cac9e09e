// Whether cards that name lines fit one another: their states, their levels, the header and the trailer.
ghost use Rattle.std.specs.Prelude.{◌≡◌, ◌+◌, ◌<◌, ◌≤◌, List, length, Decides};
ghost use Rattle.model.specs.Lines as model;
ghost use Rattle.model.specs.Files.{Placed, Passes, IsPointer};
ghost use Rattle.lines.specs.Shown.{Shows, value_of};
ghost use Rattle.holding.specs.Standing.{OnLines, AllowedValue, Top, Follows, Fits};

use lines::{HEAD, Line, Payload, TRLR};
use looking::line_at;
use model::{Card, State};

// Whether a state may stand on a line with the payload: void only for a pointer, and empty only for another payload.
fn is_allowed(state: State, payload: Payload<'_>) -> bool
    ensures { Decides result (AllowedValue state (value_of payload.entry)) }
{
    let points = payload.is_pointer();
    match state {
        State::Filed => true,
        State::Voided => points,
        State::Emptied => !points,
        State::Blank => false,
    }
}

fn is_top(line: Line<'_>, tag: &[u8]) -> bool
    ensures { (l : model.Line) → Shows line.entry l → Decides result (Top tag.now l) }
{
    line.level == 0 && line.tag == tag
}

// Whether a line may follow the one of the card before, at most one level deeper; the first is the header.
fn follows(before: Option<Line<'_>>, line: Line<'_>) -> bool
    ensures { Follows before.entry line.entry result }
{
    match before {
        None => is_top(line, HEAD),
        Some(before) => line.level <= before.level.saturating_add(1),
    }
}

// Whether the cards, which name lines in their order, fit one another, the header first and the trailer last.
pub fn fits(file: &[u8], cards: &[Card]) -> bool
    ensures { (ps : List Placed) → Passes file.now ps → OnLines ps cards.now → Decides result (Fits ps cards.now) }
{
    let mut before = None;
    for card in cards {
        let Some(line) = line_at(file, card.byte as usize) else {
            return false;
        };
        if !is_allowed(card.state, line.payload) || !follows(before, line) {
            return false;
        }
        before = Some(line);
    }
    before.is_some_and(|last| is_top(last, TRLR))
}
