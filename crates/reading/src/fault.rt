ghost use Rattle.std.specs.Prelude.{◌≡◌};
ghost use Rattle.reading.specs.declared.fault.ReadFault.TheVariants.{Lines};
ghost use Rattle.reading.specs.Faults.{read_fault};

use characters::fault_at;
use lines::LineFault;
use model::{Fault, Place};

// Why a tree is not read. The place is that of the first line that breaks the rule.
#[derive(Clone, Copy, PartialEq, Eq, Debug)]
pub enum ReadFault {
    // its lines are refused
    Lines(LineFault),
    // a line for which there is no card
    NoCard(Place),
    // an identifier that stands a second time
    Repeated(Place),
    // a pointer that names no record
    Lost(Place),
    // a tag that the book does not know there
    Unknown(Place),
    // a payload that is not of its kind
    Untaken(Place),
    // a pointer to a record of another type
    Misaimed(Place),
    // a second structure of its type where one may stand
    Second(Place),
    // a structure under which a type is missing
    Missing(Place, u16),
    // a structure with neither payload nor substructure
    Bare(Place),
}

impl ReadFault {
    // Its number, which people are told, and its place, and the type that is missing: the variants hold a value, so none casts
    // to a number.
    pub fn fault(&self) -> Fault
        ensures { result ≡ read_fault self.now }
    {
        match *self {
            ReadFault::Lines(fault) => fault.fault(),
            ReadFault::NoCard(at) => fault_at(11, at),
            ReadFault::Repeated(at) => fault_at(12, at),
            ReadFault::Lost(at) => fault_at(13, at),
            ReadFault::Unknown(at) => fault_at(14, at),
            ReadFault::Untaken(at) => fault_at(15, at),
            ReadFault::Misaimed(at) => fault_at(16, at),
            ReadFault::Second(at) => fault_at(17, at),
            ReadFault::Missing(at, missing) => Fault {
                number: 18,
                line: at.line,
                byte: at.byte,
                missing: Some(missing),
            },
            ReadFault::Bare(at) => fault_at(19, at),
        }
    }
}

// By hand, since a derived one would not say which variant it makes.
impl From<LineFault> for ReadFault {
    ghost from_gives = { λ f r. r ≡ Lines f };

    fn from(fault: LineFault) -> ReadFault {
        ReadFault::Lines(fault)
    }
}
