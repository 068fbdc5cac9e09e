ghost use Rattle.std.specs.Prelude.{◌≡◌, ◌<◌, List, length, slice_index_or};
ghost use Rattle.model.specs.Datasets.{Entry};
ghost use Rattle.model.specs.Edits.{no_entry};
ghost use Rattle.kinds.specs.Contents.{StandsFor};
ghost use Rattle.judging.specs.Entries.{Targets};

use kinds::Content;

// The entries of a tree without the trailer's, one for each card, wherever their lines come from. Every question is
// answered, also where there is no such tree: then, and of a card past the last, nothing is said of the answer.
pub trait Entries {
    // These are the entries.
    ghost shows: { Self → List Entry → Type 0 };

    fn count(&self) -> usize
        ensures { (b : List Entry) → shows self.now b → result ≡ length b };

    fn level(&self, i: usize) -> u8
        ensures { (b : List Entry) → shows self.now b → i < length b → result ≡ (slice_index_or b i no_entry).level };

    fn tag(&self, i: usize) -> &[u8]
        ensures { (b : List Entry) → shows self.now b → i < length b → result.now ≡ (slice_index_or b i no_entry).tag };

    fn content(&self, i: usize) -> Content<'_>
        ensures { (b : List Entry) → shows self.now b → i < length b → StandsFor result (slice_index_or b i no_entry).payload };

    // The position of the record that a pointer names, or none where the payload names no record.
    fn target(&self, i: usize) -> Option<usize>
        ensures { (b : List Entry) → shows self.now b → i < length b → Targets b i result };
}
