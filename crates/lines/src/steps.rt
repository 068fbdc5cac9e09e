// The lines of a file, one after the other.
ghost use Rattle.std.specs.Prelude.{◌≡◌, ◌-◌, ◌<◌, ◌≤◌, List, [], length, if◌then◌else◌};
ghost use Rattle.model.specs.LineTurns.{Scanned, is_marked, line_end, next_line};
ghost use Rattle.model.specs.Scan.{in_line};
ghost use Rattle.model.specs.Characters.{Clean};
ghost use Rattle.model.specs.Files.{Placed};
ghost use Rattle.lines.specs.Steps.{Steps, Gives, BytesCome};
ghost use Rattle.lines.specs.Iterating.{GivesNext};
ghost use Rattle.std.specs.Iterator.{at_most};

use crate::cursor::Cursor;
use crate::line::{Line, parse};
use crate::part::run;
use characters::without_mark;

// A line, its number from 1, the byte where it begins, and its bytes without its end.
#[derive(Clone, Copy)]
pub struct Found<'a> {
    pub number: usize,
    pub byte: usize,
    pub bytes: &'a [u8],
    pub line: Line<'a>,
}

// Bytes that are no line, or that have no end.
#[derive(Clone, Copy, PartialEq, Eq, Debug)]
pub struct NoLine;

// Whether a byte stands inside of a line.
fn is_inside(b: u8) -> bool
    ensures { result ≡ in_line b }
{
    b != b'\n' && b != b'\r'
}

// Where the line that begins at `at` has its end.
fn line_end(file: &[u8], at: usize) -> usize
    requires { at ≤ length file.now }
    ensures value { result ≡ line_end file.now at }
    ensures bounds { (at ≤ result) × (result ≤ length file.now) }
{
    at + run(&file[at..], is_inside)
}

// Where the line behind the end at `end` begins: CR LF is one end.
fn next_line(file: &[u8], end: usize) -> usize
    requires { end < length file.now }
    ensures value { result ≡ next_line file.now end }
    ensures bounds { (end < result) × (result ≤ length file.now) }
{
    match &file[end..] {
        [b'\r', b'\n', ..] => end + 2,
        _ => end + 1,
    }
}

impl<'a> Cursor<'a> {
    // Before the first line, behind the mark if there is one.
    pub fn new(file: &'a [u8]) -> Cursor<'a>
        ensures file { result.file.now ≡ file.now }
        ensures start { (result.at ≡ (if is_marked file.now then 3 else 0)) × (result.lines ≡ 0) }
        ensures begins { Clean file.now → Scanned file.now [] result.at }
    {
        Cursor {
            file,
            at: file.len() - without_mark(file).len(),
            lines: 0,
        }
    }

    // The next line, or none at the end of the file. A cursor that came to the end or to no line stays there.
    pub fn step(&mut self) -> Result<Option<Found<'a>>, NoLine>
        ensures file { self.new.file.now ≡ self.old.file.now }
        ensures steps { Steps self.old.file.now self.old.at self.old.lines self.new.at self.new.lines result }
        ensures given { (ps : List Placed) → Scanned self.old.file.now ps self.old.at → length ps ≡ self.old.lines → Gives self.old.file.now ps self.new.at result }
        ensures bytes { BytesCome self.old.file.now self.old.at result }
    {
        if self.at >= self.file.len() {
            return Ok(None);
        }
        let end = line_end(self.file, self.at);
        if end == self.file.len() {
            return Err(NoLine);
        }
        let bytes = &self.file[self.at..end];
        let line = parse(bytes).ok_or(NoLine)?;
        let found = Found {
            number: self.lines + 1,
            byte: self.at,
            bytes,
            line,
        };
        self.at = next_line(self.file, end);
        self.lines += 1;
        Ok(Some(found))
    }
}

// The lines up to the end of the file, or up to bytes that are no line.
impl<'a> Iterator for Cursor<'a> {
    type Item = Found<'a>;

    ghost next_gives = { GivesNext };

    ghost remaining = { λ s. at_most (length s.file.now - s.at) };

    fn next(&mut self) -> Option<Found<'a>> {
        self.step().ok().flatten()
    }
}
