// The lines of a file: what one line says, a cursor over all of them, and the rules that they keep whatever the book is.
#![tactic(auto)]

mod cursor;
mod fault;
mod line;
mod notes;
mod part;
mod rules;
mod steps;

pub use cursor::Cursor;
pub use fault::LineFault;
pub use line::{CONC, CONT, HEAD, Line, Payload, TRLR, VOID, parse};
pub use rules::{Counts, check};
pub use steps::{Found, NoLine};
