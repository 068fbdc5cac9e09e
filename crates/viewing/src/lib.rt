// A view of the dataset that a drawer holds: its cards one by one, and its written form.
#![tactic(auto)]

mod face;
mod looks;
mod opening;
mod view;
mod writes;

pub use face::Face;
pub use opening::open;
pub use view::View;
