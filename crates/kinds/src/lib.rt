// What each kind of payload takes. Times and ages are read here; dates, lists and plain texts in crates of their own.
#![tactic(auto)]

mod age;
mod kind;
mod payload;
mod time;

pub use kind::{is_pointer, may_be_emptied, takes_nothing};
pub use payload::{Content, takes};
