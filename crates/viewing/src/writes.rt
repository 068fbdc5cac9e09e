// The written form of a view.
ghost use Rattle.std.specs.Prelude.{◌≡◌, length, Err};
ghost use Rattle.model.specs.declared.Refusal.{Refusal};
ghost use Rattle.model.specs.Datasets.{Dataset, lines, with_line_feeds, written};
ghost use Rattle.model.specs.Cards.{Holds};
ghost use Rattle.model.specs.Runs.{write_reply, written_over};
ghost use Rattle.writing.specs.Written.{Adds};
ghost use Rattle.viewing.specs.Answers.{write_answer};
ghost use Rattle.viewing.specs.Views.{CardsOf};

use crate::view::View;
use characters::{LIMIT, MARK};
use holding::count_named;
use model::{Card, Refusal};
use writing::{card_size, put, write_card};

// The cards of the dataset, without the blank ones behind them.
fn named(drawer: &[Card]) -> &[Card]
    ensures { CardsOf drawer.now result.now }
{
    &drawer[..count_named(drawer)]
}

// Writes the cards of the dataset to a place of the buffer, and answers where they end.
fn write_cards(file: &[u8], drawer: &[Card], buffer: &mut [u8], at: usize) -> usize
    ensures { (d : Dataset) → Holds file.now drawer.now d → Adds buffer.old at (with_line_feeds (lines d)) result buffer.new }
{
    // a loop: with fold what the buffer holds in the end was not proved
    let mut end = at;
    for card in named(drawer) {
        end = write_card(file, *card, buffer, end);
    }
    end
}

impl View<'_, '_> {
    // How many bytes the written form has, which may be more than a file may have.
    pub fn size(&self) -> usize
        ensures { (d : Dataset) → Holds self.now.file.now self.now.drawer.now d → result ≡ length (written d) }
    {
        let mut size = MARK.len();
        // a loop: with map and sum the bound of the sum was not proved
        for card in named(self.drawer) {
            size += card_size(self.file, *card);
        }
        size
    }

    // Writes the mark and the lines of the dataset, each ended by LF, to the front of the buffer, and answers how many bytes
    // that is. Those behind them stay, and so do all where it is refused.
    pub fn write(&self, buffer: &mut [u8]) -> Result<usize, Refusal>
        ensures written { (d : Dataset) → Holds self.now.file.now self.now.drawer.now d → (write_answer result ≡ write_reply d (length buffer.old)) × (buffer.new ≡ written_over d buffer.old) }
        ensures refused { (f : Refusal) → result ≡ Err f → buffer.new ≡ buffer.old }
    {
        let size = self.size();
        if size > LIMIT {
            return Err(Refusal::Oversized);
        }
        if size > buffer.len() {
            return Err(Refusal::Cramped);
        }
        let end = put(buffer, 0, &MARK);
        Ok(write_cards(self.file, self.drawer, buffer, end))
    }
}
