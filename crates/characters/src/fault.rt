ghost use Rattle.std.specs.Prelude.{◌≡◌};
ghost use Rattle.model.specs.Refusals.{fault};
ghost use Rattle.characters.specs.Faults.{byte_fault};

use model::{Fault, Place};

// Why the bytes of a file are refused.
#[derive(Clone, Copy, PartialEq, Eq, Debug)]
pub enum ByteFault {
    // longer than a file may be
    TooLong,
    // not UTF-8 from here on
    Malformed(Place),
    // a character that is banned
    Banned(Place),
}

// What is told of a place.
pub fn fault_at(number: u8, at: Place) -> Fault
    ensures { result ≡ fault number at.line at.byte }
{
    Fault {
        number,
        line: at.line,
        byte: at.byte,
        missing: None,
    }
}

impl ByteFault {
    // Its number and its place. A match gives the number, since no variant with a place casts to one.
    pub fn fault(&self) -> Fault
        ensures { result ≡ byte_fault self.now }
    {
        match *self {
            ByteFault::TooLong => fault_at(1, Place::NOWHERE),
            ByteFault::Malformed(at) => fault_at(2, at),
            ByteFault::Banned(at) => fault_at(3, at),
        }
    }
}
