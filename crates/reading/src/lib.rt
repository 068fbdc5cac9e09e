// A tree is read into a drawer. The file, the drawer and the book stay parameters, since a caller lends them for one call: a
// struct of the file and its cards, or of the file and the book, would be made for one question and be no plainer.
#![tactic(auto)]

mod entered;
mod fault;
mod filing;

pub use entered::Entered;
pub use fault::ReadFault;
pub use filing::read;
