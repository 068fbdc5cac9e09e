use lines::Line;

// What a card shows. Identifier, tag and payload are parts of the file; the payload is the first line of a text, from the
// second byte on where its first @ is doubled.
pub type Face<'f> = Line<'f>;
