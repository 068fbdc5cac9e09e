// What is written of one card: its line, and those that continue it, each ended by LF.
#![tactic(auto)]

mod card;
mod continued;
mod copying;
mod head;

pub use card::{card_size, write_card};
pub use copying::put;
