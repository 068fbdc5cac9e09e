// Cuts a payload at spaces and commas, for every grammar. The plain grammars stand here too: flags, integers, versions, names
// and lists.
#![tactic(auto)]

mod list;
mod plain;
mod words;

pub use list::{are_texts, are_words};
pub use plain::{is_flag, is_integer, is_one_of, is_person, is_version};
pub use words::Words;
