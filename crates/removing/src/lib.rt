// Whether the tree that a drawer holds belongs to a book, and the removal of people from it. The file, the drawer and the book
// stay parameters, since a caller lends them for one call.
#![tactic(auto)]

mod belonging;
mod entering;
mod removal;

pub use belonging::belongs;
pub use removal::remove;
