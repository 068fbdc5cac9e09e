use crate::bytes::{append_numbered, unhexed};
use crate::command::Command;
use crate::show::{FILLING, show_drawer, show_outcome, show_written};
use crate::trouble::Trouble;
use books::Shelf;
use calls::{Answer, perform};
use model::{Call, Card};
use std::alloc::Global;

// What a script is carried out on: a file, a book and a drawer.
#[derive(Drop)]
pub struct Desk {
    file: Vec<u8>,
    shelf: Shelf,
    drawer: Vec<Card>,
}

impl Desk {
    pub fn new(heap: Global) -> Desk {
        Desk {
            file: Vec::new(heap),
            shelf: Shelf::Home,
            drawer: Vec::new(heap),
        }
    }

    fn put(&mut self, place: usize, card: Card) {
        if let Some(old) = self.drawer.get_mut(place) {
            *old = card;
        }
    }

    // Performs a call with a buffer of so many bytes, and prints its answer.
    fn perform(&mut self, rt: &HostRuntime, call: Call, room: usize) -> Result<(), Trouble> {
        let mut buffer = vec![in rt.alloc(); FILLING; room]?;
        let outcome = perform(&self.shelf, &self.file, &mut self.drawer, &mut buffer, call);
        match (call, outcome) {
            (Call::Write, Ok(Answer::Number(size))) => show_written(rt, &buffer, size),
            (_, outcome) => show_outcome(rt, outcome),
        }
    }

    // Carries out one line of a script, and prints the answer to it if it asks something.
    pub fn carry_out(
        &mut self,
        rt: &HostRuntime,
        line: &str,
        asked: Option<Command<'_>>,
    ) -> Result<(), Trouble> {
        match asked {
            Some(Command::Name) => println!(rt; "{line}")?,
            Some(Command::Tree(hex)) => self.file = unhexed(rt.alloc(), hex)?,
            Some(Command::Add(count, before, after)) => {
                let before = unhexed(rt.alloc(), before)?;
                let after = unhexed(rt.alloc(), after)?;
                append_numbered(rt.alloc(), &mut self.file, count, &before, &after)?;
            }
            Some(Command::Book(shelf)) => self.shelf = shelf,
            Some(Command::Cards(count)) => self.drawer = vec![in rt.alloc(); Card::BLANK; count]?,
            Some(Command::Put(place, card)) => self.put(place, card),
            Some(Command::Drawer) => show_drawer(rt, self.drawer.as_slice())?,
            Some(Command::Perform(call, room)) => self.perform(rt, call, room)?,
            None => println!(rt; "not understood: {line}")?,
        }
        Ok(())
    }
}
