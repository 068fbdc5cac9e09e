// What the rules ask of each line as it comes, and what is noted of them: for each rule the first line that breaks it.
ghost use Rattle.std.specs.Prelude.{◌≡◌, ◌<◌, ◌≤◌};
ghost use Rattle.std.specs.Result.{result_err};
ghost use Rattle.model.specs.LineTurns.{note as noted};
ghost use Rattle.model.specs.LineTurns.{breaks6, is_trailer, closes, breaks8, breaks9, breaks10, last_after, notes_after, closing};
ghost use Rattle.model.specs.LineTurns.{is_pointer as pointing, is_nothing};
ghost use Rattle.lines.specs.Shown.{value_of};
ghost use Rattle.lines.specs.Scans.{Sees, seen, last_of, notes_of, no_scan, After, Verdict};

use crate::fault::LineFault;
use crate::line::{CONC, CONT, HEAD, Line, Payload, TRLR};
use model::Place;

// What the rules ask of a line: eight questions, as the definitions have them. No enum of tags, since a rule would test it as
// often as it tests these.
#[derive(Clone, Copy)]
pub struct Seen {
    pub level: u8,
    pub named: bool,
    pub header: bool,
    pub trailer: bool,
    pub continuation: bool,
    pub concatenation: bool,
    pub pointing: bool,
    pub empty: bool,
}

// The last line that was no continuation.
#[derive(Clone, Copy)]
pub struct Last {
    pub level: u8,
    pub pointing: bool,
    pub first: bool,
}

// For each rule the first line that breaks it, and the first trailer.
#[derive(Clone, Copy)]
pub struct Notes {
    pub levels: Option<Place>,
    pub first: Option<Place>,
    pub trailer: Option<Place>,
    pub steps: Option<Place>,
    pub named: Option<Place>,
    pub continued: Option<Place>,
}

// What is known of the lines so far.
#[derive(Clone, Copy)]
pub struct Scan {
    pub lines: u32,
    pub cards: u32,
    pub deepest: u8,
    pub last: Last,
    pub notes: Notes,
    // whether the last line is a bare trailer, and where it is, trailer or not: no Option, since the place is told of a line
    // that is none
    pub closed: bool,
    pub here: Place,
}

pub fn look(line: Line<'_>) -> Seen
    ensures { Sees line.entry result }
{
    Seen {
        level: line.level,
        named: line.identifier.is_some(),
        header: line.tag == HEAD,
        trailer: line.tag == TRLR,
        continuation: line.tag == CONT,
        concatenation: line.tag == CONC,
        pointing: line.payload.is_pointer(),
        empty: matches!(line.payload, Payload::None),
    }
}

impl Seen {
    // Whether a line with `n` before it breaks the rule of the header.
    fn breaks_header(self, n: u32) -> bool
        ensures { result ≡ breaks6 n (seen self) }
    {
        let top = self.level == 0 && self.header;
        if n == 0 {
            !(top && !self.named && self.empty)
        } else {
            top
        }
    }

    fn is_trailer(self) -> bool
        ensures { result ≡ is_trailer (seen self) }
    {
        self.level == 0 && self.trailer
    }

    fn is_bare_trailer(self) -> bool
        ensures { result ≡ closes (seen self) }
    {
        self.is_trailer() && !self.named && self.empty
    }

    fn breaks_steps(self, last: Last) -> bool
        ensures { result ≡ breaks8 (last_of last) (seen self) }
    {
        !self.continuation && self.level.saturating_sub(last.level) > 1
    }

    fn breaks_names(self) -> bool
        ensures { result ≡ breaks9 (seen self) }
    {
        self.level > 0 && self.named
    }

    fn breaks_continuations(self, last: Last) -> bool
        ensures { result ≡ breaks10 (last_of last) (seen self) }
    {
        let continues = self.level.saturating_sub(last.level) == 1
            && !last.first
            && !last.pointing
            && !self.pointing;
        self.concatenation || (self.continuation && !continues)
    }
}

impl Last {
    // After a line with `n` before it.
    fn after(self, n: u32, v: Seen) -> Last
        ensures { last_of result ≡ last_after n (last_of self) (seen v) }
    {
        if v.continuation {
            self
        } else {
            Last {
                level: v.level,
                pointing: v.pointing,
                first: n == 0,
            }
        }
    }
}

// The first place that is noted stays.
fn note(first: Option<Place>, broken: bool, here: Place) -> Option<Place>
    ensures { result ≡ noted first broken here }
{
    first.or(broken.then_some(here))
}

impl Notes {
    // After a line with `n` before it, which begins at `byte`.
    fn after(self, n: u32, byte: u32, last: Last, v: Seen) -> Notes
        requires { n < 16777216 }
        ensures { notes_of result ≡ notes_after n byte (last_of last) (seen v) (notes_of self) }
    {
        let here = Place { line: n + 1, byte };
        Notes {
            levels: note(self.levels, v.level > 63, here),
            first: note(self.first, v.breaks_header(n), here),
            trailer: note(self.trailer, v.is_trailer(), here),
            steps: note(self.steps, v.breaks_steps(last), here),
            named: note(self.named, v.breaks_names(), here),
            continued: note(self.continued, v.breaks_continuations(last), here),
        }
    }
}

impl Scan {
    // Before the first line.
    pub fn new() -> Scan
        ensures { result ≡ no_scan }
    {
        Scan {
            lines: 0,
            cards: 0,
            deepest: 0,
            last: Last {
                level: 0,
                pointing: false,
                first: false,
            },
            notes: Notes {
                levels: None,
                first: None,
                trailer: None,
                steps: None,
                named: None,
                continued: None,
            },
            closed: false,
            here: Place::NOWHERE,
        }
    }

    // After one line more, which begins at `byte`.
    pub fn after(self, v: Seen, byte: u32) -> Scan
        requires { (self.lines < 16777216) × (self.cards ≤ self.lines) }
        ensures { After self v byte result }
    {
        Scan {
            lines: self.lines + 1,
            cards: if v.continuation {
                self.cards
            } else {
                self.cards + 1
            },
            deepest: self.deepest.max(v.level),
            last: self.last.after(self.lines, v),
            notes: self.notes.after(self.lines, byte, self.last, v),
            closed: v.is_bare_trailer(),
            here: Place {
                line: self.lines + 1,
                byte,
            },
        }
    }

    // Whether no rule is broken; if one is, the lowest is told.
    pub fn verdict(self) -> Result<(), LineFault>
        ensures { Verdict self (result_err result) }
    {
        let notes = self.notes;
        if let Some(at) = notes.levels {
            return Err(LineFault::TooDeep(at));
        }
        if let Some(at) = notes.first {
            return Err(LineFault::Header(at));
        }
        if let Some(at) = broken_trailer(notes.trailer, self.closed, self.here) {
            return Err(LineFault::Trailer(at));
        }
        if let Some(at) = notes.steps {
            return Err(LineFault::Jump(at));
        }
        if let Some(at) = notes.named {
            return Err(LineFault::Named(at));
        }
        if let Some(at) = notes.continued {
            return Err(LineFault::Continuation(at));
        }
        Ok(())
    }
}

// A trailer that is not the last line, or a last line that is no bare trailer.
fn broken_trailer(trailer: Option<Place>, closed: bool, here: Place) -> Option<Place>
    ensures { result ≡ closing trailer closed here }
{
    match trailer {
        Some(place) if place.line < here.line => Some(place),
        Some(_) if closed => None,
        _ => Some(here),
    }
}
