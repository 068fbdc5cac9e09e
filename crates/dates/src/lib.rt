// Which texts are dates, in any of the four calendars, and which are periods.
#![tactic(auto)]

mod calendar;
mod date;

pub use date::{is_date_value, is_exact, is_period};
