ghost use Rattle.std.specs.Prelude.{◌≡◌};
ghost use Rattle.calls.specs.declared.answer.Denial.TheVariants.{Unread, Refused};

use model::Refusal;
use reading::ReadFault;
use viewing::Face;

// What a granted call answers.
#[derive(Clone, Copy)]
pub enum Answer<'f> {
    // how many cards were read, went or are there, or how many bytes are written or would be
    Number(usize),
    // a view could be opened
    Opened,
    // what a card shows
    Seen(Face<'f>),
    // a further line of a text, or none past the last
    Line(Option<&'f [u8]>),
}

// Why a call is refused.
#[derive(Clone, Copy, PartialEq, Eq, Debug)]
pub enum Denial {
    // of a reading
    Unread(ReadFault),
    // of any other call
    Refused(Refusal),
}

// Both by hand, since a derived one would not say which variant it makes.
impl From<ReadFault> for Denial {
    ghost from_gives = { λ f r. r ≡ Unread f };

    fn from(fault: ReadFault) -> Denial {
        Denial::Unread(fault)
    }
}

impl From<Refusal> for Denial {
    ghost from_gives = { λ f r. r ≡ Refused f };

    fn from(refusal: Refusal) -> Denial {
        Denial::Refused(refusal)
    }
}
