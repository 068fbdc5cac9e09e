// The books asked by example: every entry of the home book and tags that have none, layers over each other, a layer
// over a book that has no room for a further type, and each book by its name. What is expected is written down from the
// table of the society.
#![tactic(auto)]

#[cfg(test)]
mod full;
#[cfg(test)]
mod home;
#[cfg(test)]
mod kinds;
#[cfg(test)]
mod layers;
#[cfg(test)]
mod shelf;
