// Books of rules: what a society asks of a tree that is deposited with it. Every book stands behind one interface, and
// what is above is proved once for every book that keeps its laws.
#![tactic(auto)]

mod book;
mod home;
mod kinds;
mod open;
mod plain;
mod pointers;
mod shelf;

pub use book::Book;
pub use home::Home;
pub use kinds::{kind_number, kind_parameter};
pub use open::Open;
pub use plain::Plain;
pub use pointers::pointers_stay_within;
pub use shelf::{NoSuchBook, Shelf};
