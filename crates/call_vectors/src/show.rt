use crate::bytes::hexed;
use crate::trouble::Trouble;
use calls::{Answer, Denial};
use lines::Payload;
use model::{Card, Fault};
use viewing::Face;

// What each byte of a lent buffer is beforehand.
pub const FILLING: u8 = 0x2E;

// The cards up to the last that is not blank.
fn used(cards: &[Card]) -> &[Card] {
    match cards.iter().rposition(|card| *card != Card::BLANK) {
        Some(last) => &cards[..=last],
        None => &[],
    }
}

pub fn show_drawer(rt: &HostRuntime, drawer: &[Card]) -> Result<(), Trouble> {
    let length = drawer.len();
    print!(rt; "drawer {length}:")?;
    for card in used(drawer) {
        let byte = card.byte;
        let state = card.state as u8;
        print!(rt; " {byte}.{state}")?;
    }
    println!(rt; "")?;
    Ok(())
}

fn show_fault(rt: &HostRuntime, fault: Fault) -> Result<(), Trouble> {
    let Fault {
        number,
        line,
        byte,
        missing,
    } = fault;
    if let Some(missing) = missing {
        println!(rt; "refused {number} line {line} byte {byte} missing {missing}")?;
    } else if line == 0 {
        println!(rt; "refused {number}")?;
    } else {
        println!(rt; "refused {number} line {line} byte {byte}")?;
    }
    Ok(())
}

// Parts of a file that are ASCII by its rules.
fn ascii(bytes: &[u8]) -> &str {
    std::str::from_utf8(bytes).unwrap_or("?")
}

fn show_face(rt: &HostRuntime, face: Face<'_>) -> Result<(), Trouble> {
    let level = face.level;
    let identifier = face.identifier.map_or("-", ascii);
    let tag = ascii(face.tag);
    print!(rt; "card {level} {identifier} {tag} ")?;
    match face.payload {
        Payload::None => println!(rt; "none")?,
        Payload::Void => println!(rt; "void")?,
        Payload::Pointer(target) => {
            let target = ascii(target);
            println!(rt; "pointer {target}")?;
        }
        Payload::Text(text) => {
            let text = hexed(rt.alloc(), text)?;
            println!(rt; "text {text}")?;
        }
    }
    Ok(())
}

fn show_line(rt: &HostRuntime, line: Option<&[u8]>) -> Result<(), Trouble> {
    match line {
        Some(text) => {
            let text = hexed(rt.alloc(), text)?;
            println!(rt; "line {text}")?;
        }
        None => println!(rt; "none")?,
    }
    Ok(())
}

fn show_answer(rt: &HostRuntime, answer: Answer<'_>) -> Result<(), Trouble> {
    match answer {
        Answer::Number(number) => println!(rt; "ok {number}")?,
        Answer::Opened => println!(rt; "ok")?,
        Answer::Seen(face) => show_face(rt, face)?,
        Answer::Line(line) => show_line(rt, line)?,
    }
    Ok(())
}

pub fn show_outcome(rt: &HostRuntime, outcome: Result<Answer<'_>, Denial>) -> Result<(), Trouble> {
    match outcome {
        Ok(answer) => show_answer(rt, answer),
        Err(Denial::Unread(fault)) => show_fault(rt, fault.fault()),
        Err(Denial::Refused(refusal)) => {
            let number = refusal.number();
            println!(rt; "refused {number}")?;
            Ok(())
        }
    }
}

// Whether the bytes are as they were when the buffer was lent.
fn are_kept(bytes: &[u8]) -> bool {
    bytes.iter().all(|b| *b == FILLING)
}

pub fn show_written(rt: &HostRuntime, buffer: &[u8], size: usize) -> Result<(), Trouble> {
    let end = size.min(buffer.len());
    let written = hexed(rt.alloc(), &buffer[..end])?;
    let rest = if are_kept(&buffer[end..]) {
        "kept"
    } else {
        "changed"
    };
    println!(rt; "ok {size} {written} rest {rest}")?;
    Ok(())
}
