ghost use Rattle.std.specs.Prelude.{◌≡◌, ◌<◌, ◌≤◌, true, length, slice_index};
ghost use Rattle.model.specs.Bytes.{is_next, is_second, banned_at};
ghost use Rattle.model.specs.Refusals.{is_end_at};
ghost use Rattle.characters.specs.Faults.{Checks};
ghost use Rattle.characters.specs.Widths.{WidthAt};

use crate::fault::ByteFault;
use crate::lead::announced;
use model::Place;

// How many bytes a file may have.
pub const LIMIT: usize = 16_777_216;

// A byte, or 0 past the end, where no character goes on.
fn byte(file: &[u8], i: usize) -> u8
    ensures { result ≡ slice_index file.now i }
{
    file.get(i).copied().unwrap_or(0)
}

// Whether a byte goes on with a character.
fn goes_on(b: u8) -> bool
    ensures { result ≡ is_next b }
{
    matches!(b, 0x80..=0xBF)
}

// Whether `b` is the second byte of three or four after `a`: not every one is after E0, ED, F0 and F4, where it would
// spell a short character long, a surrogate, or a code past the last.
fn goes_second(a: u8, b: u8) -> bool
    ensures { result ≡ is_second a b }
{
    let least = match a {
        0xE0 => 0xA0,
        0xF0 => 0x90,
        _ => 0x80,
    };
    let past = match a {
        0xED => 0xA0,
        0xF4 => 0x90,
        _ => 0xC0,
    };
    b >= least && b < past
}

// A place in a file, where a character may begin.
#[derive(Clone, Copy)]
struct At<'a> {
    file: &'a [u8],
    i: usize,
    ghost short: { length file.now ≤ 16777216 },
    ghost within: { i < length file.now },
}

impl At<'_> {
    // How many bytes the character here has, or none where no character begins.
    fn width(self) -> Option<usize>
        ensures { WidthAt self.entry.file.now self.entry.i result }
    {
        let At { file, i } = self;
        let lead = file[i];
        let width = announced(lead);
        let whole = match width {
            1 => true,
            2 => goes_on(byte(file, i + 1)),
            3 => goes_second(lead, byte(file, i + 1)) && goes_on(byte(file, i + 2)),
            4 => goes_second(lead, byte(file, i + 1))
                && goes_on(byte(file, i + 2))
                && goes_on(byte(file, i + 3)),
            _ => false,
        };
        whole.then_some(width as usize)
    }

    // Whether the character here is banned: the controls but tab, LF and CR; DEL and the second controls, which begin with C2;
    // and the last two codes of three bytes.
    fn is_banned(self) -> bool
        ensures { result ≡ banned_at self.entry.file.now self.entry.i }
    {
        let At { file, i } = self;
        match file[i] {
            b'\t' | b'\n' | b'\r' => false,
            0x00..=0x1F | 0x7F => true,
            0xC2 => byte(file, i + 1) < 0xA0,
            0xEF => byte(file, i + 1) == 0xBF && byte(file, i + 2) > 0xBD,
            _ => false,
        }
    }

    // Whether a line ends with the byte here: CR LF ends it with the LF.
    fn ends_line(self) -> bool
        ensures { result ≡ is_end_at self.entry.file.now self.entry.i }
    {
        let At { file, i } = self;
        file[i] == b'\n' || (file[i] == b'\r' && byte(file, i + 1) != b'\n')
    }
}

// Whether a byte is a character by itself that neither is banned nor ends a line, as most are.
fn is_plain(b: u8) -> bool
    ensures { result ≡ true → (32 ≤ b) × (b < 127) }
{
    matches!(b, b' '..=b'~')
}

// Whether the bytes are a file's: few enough, UTF-8, and no character of them banned. A banned character is only noted
// while the pass goes on, since bytes that are not UTF-8 are told first, wherever they stand.
pub fn check(file: &[u8]) -> Result<(), ByteFault>
    ensures { Checks file.now result }
{
    if file.len() > LIMIT {
        return Err(ByteFault::TooLong);
    }
    let mut i = 0;
    let mut ends: u32 = 0;
    let mut found: Option<Place> = None;
    // a place that steps by whole characters, which no iterator over bytes does
    while i < file.len() {
        if is_plain(file[i]) {
            i += 1;
            continue;
        }
        let here = Place {
            line: ends + 1,
            byte: i as u32,
        };
        let at = At { file, i };
        let Some(width) = at.width() else {
            return Err(ByteFault::Malformed(here));
        };
        found = found.or(at.is_banned().then_some(here));
        if at.ends_line() {
            ends += 1;
        }
        i += width;
    }
    match found {
        Some(place) => Err(ByteFault::Banned(place)),
        None => Ok(()),
    }
}
