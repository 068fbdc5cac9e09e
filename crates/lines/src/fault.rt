ghost use Rattle.std.specs.Prelude.{◌≡◌};
ghost use Rattle.lines.specs.declared.fault.LineFault.TheVariants.{Bytes};
ghost use Rattle.lines.specs.Faults.{line_fault};

use characters::{ByteFault, fault_at};
use model::{Fault, Place};

// Why the lines of a file are refused. The place is that of the first line that breaks the rule.
#[derive(Clone, Copy, PartialEq, Eq, Debug)]
pub enum LineFault {
    // its characters are refused
    Bytes(ByteFault),
    // a line of another form or without an end, or no line at all
    NoLine(Place),
    // a level above 63
    TooDeep(Place),
    // a first line that is not a bare header, or another header
    Header(Place),
    // a last line that is not a bare trailer, or another trailer
    Trailer(Place),
    // more than one level deeper than the line before that is no continuation
    Jump(Place),
    // an identifier above level 0
    Named(Place),
    // a line that joins others, or a continuation where none may stand
    Continuation(Place),
}

impl LineFault {
    // Its number and its place. A match gives the number, since no variant with a place casts to one.
    pub fn fault(&self) -> Fault
        ensures { result ≡ line_fault self.now }
    {
        match *self {
            LineFault::Bytes(fault) => fault.fault(),
            LineFault::NoLine(at) => fault_at(4, at),
            LineFault::TooDeep(at) => fault_at(5, at),
            LineFault::Header(at) => fault_at(6, at),
            LineFault::Trailer(at) => fault_at(7, at),
            LineFault::Jump(at) => fault_at(8, at),
            LineFault::Named(at) => fault_at(9, at),
            LineFault::Continuation(at) => fault_at(10, at),
        }
    }
}

// By hand, since a derived one would not say which variant it makes.
impl From<ByteFault> for LineFault {
    ghost from_gives = { λ f r. r ≡ Bytes f };

    fn from(fault: ByteFault) -> LineFault {
        LineFault::Bytes(fault)
    }
}
