use crate::messages::sentence;
use books::NoSuchBook;
use model::Fault;
use reading::ReadFault;
use std::alloc::{AllocError, AllocFailed};
use std::{fmt, io};

// Why the program stops with status 1. Each prints as one line that says what to do.
#[derive(Clone, Copy, Debug)]
pub enum Failure {
    Usage,
    NoBook,
    Missing,
    Folder,
    Unreadable,
    Memory,
    Output,
    Refused(ReadFault),
}

impl Failure {
    // Whether it is trouble with the file that was named.
    pub fn is_of_file(&self) -> bool {
        matches!(
            *self,
            Failure::Missing | Failure::Folder | Failure::Unreadable
        )
    }
}

impl fmt::Display for Failure {
    fn fmt<W: fmt::Write>(&self, f: &mut fmt::Formatter<W>) -> fmt::Result {
        match *self {
            Failure::Usage => f.write_str(
                "intake: these words are not understood; run intake without any to see what it does",
            ),
            Failure::NoBook => write!(f, "intake: {NoSuchBook}"),
            Failure::Missing => f.write_str(
                "there is no such file; look at its name and its folder",
            ),
            Failure::Folder => f.write_str("this is a folder; name the file in it"),
            Failure::Unreadable => f.write_str("the file cannot be read; ask for leave to read it"),
            Failure::Memory => f.write_str(
                "intake: there is not enough memory; close other programs and try again",
            ),
            Failure::Output => f.write_str(
                "intake: the report could not be written; look at where the output goes",
            ),
            Failure::Refused(refused) => {
                let Fault {
                    number,
                    line,
                    byte,
                    missing,
                } = refused.fault();
                let words = sentence(refused);
                if let Some(typed) = missing {
                    write!(
                        f,
                        "refused {number}, line {line}, byte {byte}, missing type {typed}: {words}"
                    )
                } else if line == 0 {
                    write!(f, "refused {number}: {words}")
                } else {
                    write!(f, "refused {number}, line {line}, byte {byte}: {words}")
                }
            }
        }
    }
}

// By hand, as the next ones: each trouble becomes a line of this program's own, and most drop what they came from.
impl From<ReadFault> for Failure {
    fn from(fault: ReadFault) -> Failure {
        Failure::Refused(fault)
    }
}

impl From<NoSuchBook> for Failure {
    fn from(_: NoSuchBook) -> Failure {
        Failure::NoBook
    }
}

impl From<io::Error> for Failure {
    fn from(_: io::Error) -> Failure {
        Failure::Output
    }
}

impl From<AllocError> for Failure {
    fn from(_: AllocError) -> Failure {
        Failure::Memory
    }
}

impl<T: Drop> From<AllocFailed<T>> for Failure {
    fn from(_: AllocFailed<T>) -> Failure {
        Failure::Memory
    }
}
