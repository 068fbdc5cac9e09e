use books::{kind_number, kind_parameter};
use model::Kind;

// A kind, its number and its parameter.
struct Numbered(Kind, u8, u16);

const KINDS: [Numbered; 16] = [
    Numbered(Kind::Nothing, 0, 0),
    Numbered(Kind::Text, 1, 0),
    Numbered(Kind::Flag, 2, 0),
    Numbered(Kind::Integer, 3, 0),
    Numbered(Kind::Word(7), 4, 7),
    Numbered(Kind::Words(8), 5, 8),
    Numbered(Kind::Texts, 6, 0),
    Numbered(Kind::Date, 7, 0),
    Numbered(Kind::Period, 8, 0),
    Numbered(Kind::Exact, 9, 0),
    Numbered(Kind::Time, 10, 0),
    Numbered(Kind::Age, 11, 0),
    Numbered(Kind::Name, 12, 0),
    Numbered(Kind::Version, 13, 0),
    Numbered(Kind::Pointer(65535), 14, 65535),
    Numbered(Kind::Anything, 15, 0),
];

#[test]
fn kinds_have_numbers(rt: HostRuntime) {
    for Numbered(kind, number, parameter) in &KINDS {
        assert_eq!(rt; kind_number(*kind), *number);
        assert_eq!(rt; kind_parameter(*kind), *parameter);
    }
}
