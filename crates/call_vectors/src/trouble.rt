use std::alloc::AllocError;
use std::io;

// Why a script is not carried out to its end. line_vectors has the same, since two programs share no crate of theirs.
#[derive(Debug, Drop)]
pub enum Trouble {
    Memory,
    Streams,
}

impl From<AllocError> for Trouble {
    fn from(_: AllocError) -> Trouble {
        Trouble::Memory
    }
}

impl From<io::Error> for Trouble {
    fn from(_: io::Error) -> Trouble {
        Trouble::Streams
    }
}
