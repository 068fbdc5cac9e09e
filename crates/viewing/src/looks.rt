// The cards of a view.
ghost use Rattle.std.specs.Prelude.{◌≡◌, ℕ, List, MatchOption};
ghost use Rattle.model.specs.Datasets.{Entry, Dataset, first_value};
ghost use Rattle.model.specs.Files.{Placed, Lined};
ghost use Rattle.model.specs.Cards.{StandsAt, Files, Holds};
ghost use Rattle.model.specs.Removal.{card_count};
ghost use Rattle.model.specs.Runs.{shown_payload, look_reply, more_reply};
ghost use Rattle.model.proofs.Entries.{Settled};
ghost use Rattle.lines.specs.Shown.{value_of};
ghost use Rattle.looking.specs.Looking.{Shown};
ghost use Rattle.viewing.specs.Answers.{payload_of, look_answer, more_answer};
ghost use Rattle.viewing.specs.Views.{CardAt, FaceOf};

use crate::face::Face;
use crate::view::View;
use holding::count_named;
use lines::Payload;
use looking::{further_at, is_continued, line_at};
use model::{Card, Refusal, State};

// The card at a place, if it names a line: those of a dataset stand before the blank ones.
fn card_at(drawer: &[Card], card: usize) -> Result<Card, Refusal>
    ensures { CardAt drawer.now card result }
{
    drawer
        .get(card)
        .copied()
        .filter(|card| card.state != State::Blank)
        .ok_or(Refusal::Past)
}

// The payload of a line with what continues it. Where a text begins with an empty line, that line is an empty part.
fn first_payload<'f>(file: &'f [u8], byte: usize, payload: Payload<'f>) -> Payload<'f>
    ensures { (ps : List Placed) (e : Entry) → Lined file.now ps → StandsAt ps byte e → value_of payload.entry ≡ first_value e.payload → Settled e.payload → payload_of result ≡ shown_payload e.payload }
{
    match payload {
        Payload::None if is_continued(file, byte) => Payload::Text(&file[0..0]),
        other => other,
    }
}

// What the card's state leaves of the payload of its line.
fn left_payload<'f>(file: &'f [u8], card: Card, payload: Payload<'f>) -> Payload<'f>
    ensures { (ps : List Placed) (e : Entry) (f : Files ps card e) → Lined file.now ps → value_of payload.entry ≡ first_value f.filed → Settled e.payload → payload_of result ≡ shown_payload e.payload }
{
    match card.state {
        State::Voided => Payload::Void,
        State::Emptied => Payload::None,
        State::Filed | State::Blank => first_payload(file, card.byte as usize, payload),
    }
}

fn face_of(file: &[u8], card: Card) -> Option<Face<'_>>
    ensures { MatchOption result ((e : Entry) → Shown file.now card e → ⊥) (FaceOf file.now card) }
{
    let line = line_at(file, card.byte as usize)?;
    Some(Face {
        payload: left_payload(file, card, line.payload),
        ..line
    })
}

impl<'f, 'c> View<'f, 'c> {
    // How many cards the dataset has.
    pub fn count(&self) -> usize
        ensures { (d : Dataset) → Holds self.now.file.now self.now.drawer.now d → result ≡ card_count d }
    {
        count_named(self.drawer)
    }

    // What a card shows.
    pub fn look(&self, card: usize) -> Result<Face<'f>, Refusal>
        ensures { (d : Dataset) → Holds self.now.file.now self.now.drawer.now d → look_answer result ≡ look_reply d card }
    {
        let card = card_at(self.drawer, card)?;
        face_of(self.file, card).ok_or(Refusal::Past)
    }

    // The further line `number` of a card's text, from 0, or none past the last.
    pub fn more(&self, card: usize, number: usize) -> Result<Option<&'f [u8]>, Refusal>
        ensures { (d : Dataset) → Holds self.now.file.now self.now.drawer.now d → more_answer result ≡ more_reply d card number }
    {
        let card = card_at(self.drawer, card)?;
        match card.state {
            State::Filed | State::Blank => Ok(further_at(self.file, card.byte as usize, number)),
            State::Voided | State::Emptied => Ok(None),
        }
    }
}
