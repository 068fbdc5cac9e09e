// One call of any kind, with the promises over every run of calls in its contract. What a user of the library needs is
// here by name. The book, the file, the drawer and the buffer stay parameters, since a caller lends them for one call.
#![tactic(auto)]

mod answer;
mod performing;
mod viewed;

pub use answer::{Answer, Denial};
pub use performing::perform;
