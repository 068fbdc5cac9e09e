// The characters of a file: UTF-8 by RFC 3629, and none that the standard bans. This is the first check of every reading.
#![tactic(auto)]

mod fault;
mod lead;
mod mark;
mod utf8;

pub use fault::{ByteFault, fault_at};
pub use mark::{MARK, without_mark};
pub use utf8::{LIMIT, check};
