// Whether a drawer holds a dataset of a file, whatever its cards are.
#![tactic(auto)]

mod fitting;
mod front;
mod standing;
mod telling;

pub use fitting::fits;
pub use front::{are_blank, count_named};
pub use standing::on_lines;
pub use telling::{Kept, held};
