// Bytes that go into a buffer. The buffer and the place in it stay two parameters: with a struct that holds both, what the
// buffer holds in the end was not proved.
ghost use Rattle.std.specs.Prelude.{[], ◌∷◌, ◌++◌};
ghost use Rattle.writing.specs.Written.{Adds};

// Copies bytes to a place of the buffer, and answers where they end. Where there is no room for them, nothing is copied, and
// the answer is the place: a public function that could not fail, asked only of buffers with room.
pub fn put(buffer: &mut [u8], at: usize, bytes: &[u8]) -> usize
    ensures { Adds buffer.old at bytes.now result buffer.new }
{
    if at > buffer.len() || bytes.len() > buffer.len() - at {
        return at;
    }
    let end = at + bytes.len();
    buffer[at..end].copy_from_slice(bytes);
    end
}

// A line and its end.
pub fn put_line(buffer: &mut [u8], at: usize, line: &[u8]) -> usize
    ensures { Adds buffer.old at (line.now ++ 10 ∷ []) result buffer.new }
{
    let end = put(buffer, at, line);
    put(buffer, end, b"\n")
}
