// What a drawer, a lent slice of cards, has to do with the lines of a file: what a card shows, how a drawer is filled, and
// the identifiers of its cards.
#![tactic(auto)]

pub use filling::{blank_from, fill};
pub use looking::{
    content_of, further_at, identifier_of, is_continuation, is_continued, level_of, line_at,
    place_at, tag_of,
};
pub use model::MOST;
pub use naming::{NameFault, Named, UNNAMED, check_names, find, target_of};
