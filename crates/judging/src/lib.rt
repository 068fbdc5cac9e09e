// The rules of a book over the cards of a tree: the first card that breaks the lowest rule that is broken.
#![tactic(auto)]

mod cards;
mod entries;
mod finding;
mod marks;
mod needs;
mod repeats;
mod rules;
mod sets;

pub use entries::Entries;
pub use finding::{Finding, Rule};
pub use rules::judge;
