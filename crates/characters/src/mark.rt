ghost use Rattle.characters.specs.Marks.{TakenOff};

// The byte-order mark, with which a file may begin and every written file does.
pub const MARK: [u8; 3] = [0xEF, 0xBB, 0xBF];

// The file behind its mark, or all of it where it has none. It is a rule of this project that a slice pattern takes the mark
// off, and a pattern has no constant array in front of a rest: so three bytes and a guard.
pub fn without_mark(file: &[u8]) -> &[u8]
    ensures { TakenOff file.now result.now }
{
    match file {
        [first, second, third, rest @ ..] if [*first, *second, *third] == MARK => rest,
        _ => file,
    }
}
