// Checks the files that stand in its standard input, one to a line, and prints the answer for each. A file is written with
// its printable bytes as they are, a backslash as \\ and any other byte as \x and two hexadecimal digits.
#![tactic(auto)]

ghost use Rattle.std.specs.Prelude.{◌≤◌};

use model::Fault;
use std::alloc::{AllocError, AllocFailed, Global};
use std::io;
use std::io::{BufRead, BufReader};

// Where in an escape the reader stands; outside of one is a place as the others are.
#[derive(Clone, Copy)]
enum Escape {
    None,
    Slash,
    Mark,
    Half(u8),
}

// Why the cases are not all answered. call_vectors has the same, since two programs share no crate of theirs.
#[derive(Debug, Drop)]
enum Trouble {
    Memory,
    Streams,
}

impl From<AllocError> for Trouble {
    fn from(_: AllocError) -> Trouble {
        Trouble::Memory
    }
}

impl<T: Drop> From<AllocFailed<T>> for Trouble {
    fn from(_: AllocFailed<T>) -> Trouble {
        Trouble::Memory
    }
}

impl From<io::Error> for Trouble {
    fn from(_: io::Error) -> Trouble {
        Trouble::Streams
    }
}

// A digit, and 0 for any other character, so that every case has a file.
fn digit(b: u8) -> u8
    ensures { result ≤ 15 }
{
    match b {
        b'0'..=b'9' => b - b'0',
        b'A'..=b'F' => b - b'A' + 10,
        _ => 0,
    }
}

fn unescaped(heap: Global, text: &[u8]) -> Result<Vec<u8>, Trouble> {
    let mut file = Vec::new(heap);
    let mut escape = Escape::None;
    for b in text {
        escape = match escape {
            Escape::None if *b == b'\\' => Escape::Slash,
            Escape::None => {
                file.push(*b)?;
                Escape::None
            }
            Escape::Slash if *b == b'x' => Escape::Mark,
            Escape::Slash => {
                file.push(*b)?;
                Escape::None
            }
            Escape::Mark => Escape::Half(digit(*b)),
            Escape::Half(high) => {
                file.push((high & 15) * 16 + digit(*b))?;
                Escape::None
            }
        };
    }
    Ok(file)
}

fn answer(rt: &HostRuntime, case: &str) -> Result<(), Trouble> {
    let file = unescaped(rt.alloc(), case.as_bytes())?;
    match lines::check(&file) {
        Ok(counts) => {
            let lines = counts.lines;
            let continued = lines.saturating_sub(counts.cards);
            let deepest = counts.deepest;
            println!(rt; "ok {lines} {continued} {deepest} {case}")?;
        }
        Err(fault) => {
            let Fault {
                number,
                line,
                byte,
                ..
            } = fault.fault();
            println!(rt; "refused {number} line {line} byte {byte} {case}")?;
        }
    }
    Ok(())
}

fn main(rt: HostRuntime) -> Result<(), Trouble> {
    for case in BufReader::new(rt.alloc(), rt.stdin())?.lines(rt.alloc()) {
        answer(&rt, case?.as_str())?;
    }
    Ok(())
}
