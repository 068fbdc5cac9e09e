ghost use Rattle.std.specs.Prelude.{◌≤◌, length};

// A cursor over the lines of a file: how many came, and where the next begins. Contracts speak of its fields, so they are
// public, and the ghost fields hold for whoever makes one.
#[derive(Clone, Copy)]
pub struct Cursor<'a> {
    pub file: &'a [u8],
    pub at: usize,
    pub lines: usize,
    ghost within: { at ≤ length file.now },
    ghost few: { lines ≤ at },
}
