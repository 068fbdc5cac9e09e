use characters::ByteFault;
use lines::LineFault;
use reading::ReadFault;

fn byte_sentence(fault: ByteFault) -> &'static str {
    match fault {
        ByteFault::TooLong => "the file is longer than 16,777,216 bytes",
        ByteFault::Malformed(_) => "the bytes are not UTF-8",
        ByteFault::Banned(_) => "this character is banned",
    }
}

fn line_sentence(fault: LineFault) -> &'static str {
    match fault {
        LineFault::Bytes(fault) => byte_sentence(fault),
        LineFault::NoLine(_) => "this is no line, or it has no end",
        LineFault::TooDeep(_) => "the level is above 63",
        LineFault::Header(_) => "the first line is not 0 HEAD, or HEAD stands at level 0 again",
        LineFault::Trailer(_) => "the last line is not 0 TRLR, or TRLR stands at level 0 earlier",
        LineFault::Jump(_) => "the line is more than one level deeper than the one before it",
        LineFault::Named(_) => "an identifier stands on a line that is not at level 0",
        LineFault::Continuation(_) =>
            "a continuation stands in the wrong place, or the tag is CONC",
    }
}

// What each refusal says to a person.
pub fn sentence(fault: ReadFault) -> &'static str {
    match fault {
        ReadFault::Lines(fault) => line_sentence(fault),
        ReadFault::NoCard(_) => "there is no card for this line",
        ReadFault::Repeated(_) => "this identifier stands a second time",
        ReadFault::Lost(_) => "the pointer names no record",
        ReadFault::Unknown(_) => "the book does not know this tag here",
        ReadFault::Untaken(_) => "the payload is not of its kind",
        ReadFault::Misaimed(_) => "the pointer names a record of another type",
        ReadFault::Second(_) => "only one such structure may stand here",
        ReadFault::Missing(..) => "a structure that is needed here is missing",
        ReadFault::Bare(_) => "the structure has neither payload nor substructure",
    }
}
