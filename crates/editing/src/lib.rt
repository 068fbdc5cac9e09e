// What a removal does to the cards of a drawer: the edit that it is, and that edit done. An `Edit` of the model, of which the
// definitions speak, has two numbers, and the functions take them as they are. The file and the cards are lent, the cards to
// be changed, so that they stay parameters, and each function asks itself that the two numbers lie within the cards.
#![tactic(auto)]

mod applying;
mod fates;
mod gaps;
mod pointers;
mod removal;
mod rows;
mod states;
mod tree;

pub use applying::apply;
pub use removal::edit;
