use books::Shelf;
use model::{Call, Card, State};

// What one line of a script says. Bytes are still in hexadecimal.
#[derive(Clone, Copy)]
pub enum Command<'a> {
    // names the case
    Name,
    // the file becomes these bytes
    Tree(&'a str),
    // so many times the first bytes, a number and the second bytes are appended to the file
    Add(usize, &'a str, &'a str),
    Book(Shelf),
    // the drawer becomes so many blank cards
    Cards(usize),
    // a card of the drawer becomes this
    Put(usize, Card),
    Drawer,
    // a call, with a buffer of so many bytes
    Perform(Call, usize),
}

// The first word, and what follows its space.
fn cut(text: &str) -> (&str, &str) {
    text.split_once(' ').unwrap_or((text, ""))
}

fn number(text: &str) -> Option<usize> {
    text.parse::<usize>().ok()
}

// A state by its number in a script.
fn state_of(text: &str) -> Option<State> {
    match text {
        "0" => Some(State::Filed),
        "1" => Some(State::Voided),
        "2" => Some(State::Emptied),
        "3" => Some(State::Blank),
        _ => None,
    }
}

fn card_of(byte: &str, state: &str) -> Option<Card> {
    Some(Card {
        byte: byte.parse::<u32>().ok()?,
        state: state_of(state)?,
    })
}

fn add_of(rest: &str) -> Option<Command<'_>> {
    let (count, rest) = cut(rest);
    let (before, after) = cut(rest);
    Some(Command::Add(number(count)?, before, after))
}

fn put_of(rest: &str) -> Option<Command<'_>> {
    let (place, rest) = cut(rest);
    let (byte, state) = cut(rest);
    Some(Command::Put(number(place)?, card_of(byte, state)?))
}

fn more_of(rest: &str) -> Option<Command<'_>> {
    let (card, further) = cut(rest);
    Some(Command::Perform(Call::More(number(card)?, number(further)?), 0))
}

// What a line says, or none where it is not understood.
pub fn understood(line: &str) -> Option<Command<'_>> {
    let (word, rest) = cut(line);
    match word {
        "#" => Some(Command::Name),
        "tree" => Some(Command::Tree(rest)),
        "add" => add_of(rest),
        "book" => Some(Command::Book(rest.parse::<Shelf>().ok()?)),
        "cards" => Some(Command::Cards(number(rest)?)),
        "card" => put_of(rest),
        "drawer" => Some(Command::Drawer),
        "read" => Some(Command::Perform(Call::Read, 0)),
        "remove" => Some(Command::Perform(Call::Remove(number(rest)?), 0)),
        "open" => Some(Command::Perform(Call::Open, 0)),
        "count" => Some(Command::Perform(Call::Count, 0)),
        "look" => Some(Command::Perform(Call::Look(number(rest)?), 0)),
        "more" => more_of(rest),
        "size" => Some(Command::Perform(Call::Size, 0)),
        "write" => Some(Command::Perform(Call::Write, number(rest)?)),
        _ => None,
    }
}
