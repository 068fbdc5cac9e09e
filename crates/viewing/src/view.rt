ghost use Rattle.model.specs.Cards.{Holds};
ghost use Rattle.model.specs.Datasets.{Dataset};

use model::Card;

// A drawer that holds a dataset of a file, and that file. Both are lent, so that neither can change while a view stands. A
// method's contract speaks of whatever dataset is held: the ghost field of a struct that is copied is a fact and no value.
#[derive(Clone, Copy)]
pub struct View<'f, 'c> {
    pub file: &'f [u8],
    pub drawer: &'c [Card],
    ghost held: { ∥ ((d : Dataset) × Holds file.now drawer.now d) ∥₁ },
}
