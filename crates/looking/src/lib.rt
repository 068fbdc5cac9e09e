// What the line that a card stands for shows. Each function is public and takes what it asks about: a struct of a file and a
// card would be made for each question and be no plainer.
#![tactic(auto)]

mod further;
mod shown;

pub use further::further_at;
pub use shown::{
    content_of, identifier_of, is_continuation, is_continued, level_of, line_at, place_at, tag_of,
};
