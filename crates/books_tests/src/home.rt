use books::{Book, Home, kind_number, kind_parameter};
use model::{Context, Kind, Row};

// Where a tag stands, the tag, its type, the number and the parameter of the type's kind, whether it is required, and
// whether many may stand there.
struct Line(Context, &'static [u8], u16, u8, u16, bool, bool);

const LINES: [Line; 47] = [
    Line(Context::Top, b"HEAD", 0, 0, 0, true, false),
    Line(Context::Top, b"INDI", 1, 0, 0, false, true),
    Line(Context::Top, b"FAM", 2, 0, 0, false, true),
    Line(Context::Top, b"SNOTE", 3, 1, 0, false, true),
    Line(Context::Top, b"SUBM", 4, 0, 0, false, true),
    Line(Context::Under(0), b"GEDC", 5, 0, 0, true, false),
    Line(Context::Under(0), b"DATE", 6, 9, 0, false, false),
    Line(Context::Under(0), b"SUBM", 7, 14, 4, false, false),
    Line(Context::Under(0), b"NOTE", 8, 1, 0, false, false),
    Line(Context::Under(5), b"VERS", 9, 13, 0, true, false),
    Line(Context::Under(6), b"TIME", 10, 10, 0, false, false),
    Line(Context::Under(1), b"RESN", 11, 5, 1, false, false),
    Line(Context::Under(1), b"NAME", 12, 12, 0, false, true),
    Line(Context::Under(1), b"SEX", 13, 4, 0, false, false),
    Line(Context::Under(1), b"BIRT", 14, 2, 0, false, true),
    Line(Context::Under(1), b"DEAT", 15, 2, 0, false, true),
    Line(Context::Under(1), b"FAMC", 16, 14, 2, false, true),
    Line(Context::Under(1), b"FAMS", 17, 14, 2, false, true),
    Line(Context::Under(1), b"ALIA", 19, 14, 1, false, true),
    Line(Context::Under(1), b"NOTE", 8, 1, 0, false, true),
    Line(Context::Under(1), b"SNOTE", 18, 14, 3, false, true),
    Line(Context::Under(12), b"TYPE", 21, 4, 2, false, false),
    Line(Context::Under(12), b"GIVN", 22, 1, 0, false, true),
    Line(Context::Under(12), b"SURN", 23, 1, 0, false, true),
    Line(Context::Under(14), b"DATE", 24, 7, 0, false, false),
    Line(Context::Under(14), b"PLAC", 25, 6, 0, false, false),
    Line(Context::Under(14), b"AGE", 26, 11, 0, false, false),
    Line(Context::Under(15), b"DATE", 24, 7, 0, false, false),
    Line(Context::Under(15), b"PLAC", 25, 6, 0, false, false),
    Line(Context::Under(15), b"AGE", 26, 11, 0, false, false),
    Line(Context::Under(31), b"DATE", 24, 7, 0, false, false),
    Line(Context::Under(31), b"PLAC", 25, 6, 0, false, false),
    Line(Context::Under(24), b"TIME", 10, 10, 0, false, false),
    Line(Context::Under(24), b"PHRASE", 27, 1, 0, false, false),
    Line(Context::Under(25), b"MAP", 28, 0, 0, false, false),
    Line(Context::Under(28), b"LATI", 29, 1, 0, true, false),
    Line(Context::Under(28), b"LONG", 30, 1, 0, true, false),
    Line(Context::Under(2), b"HUSB", 32, 14, 1, false, false),
    Line(Context::Under(2), b"WIFE", 33, 14, 1, false, false),
    Line(Context::Under(2), b"CHIL", 34, 14, 1, false, true),
    Line(Context::Under(2), b"MARR", 31, 2, 0, false, true),
    Line(Context::Under(2), b"NOTE", 8, 1, 0, false, true),
    Line(Context::Under(2), b"SNOTE", 18, 14, 3, false, true),
    Line(Context::Under(32), b"PHRASE", 27, 1, 0, false, false),
    Line(Context::Under(33), b"PHRASE", 27, 1, 0, false, false),
    Line(Context::Under(34), b"PHRASE", 27, 1, 0, false, false),
    Line(Context::Under(4), b"NAME", 20, 1, 0, true, false),
];

// A tag that has no type where it stands.
struct Absent(Context, &'static [u8]);

const ABSENT: [Absent; 51] = [
    Absent(Context::Top, b"GEDC"),
    Absent(Context::Top, b"NAME"),
    Absent(Context::Top, b"NOTE"),
    Absent(Context::Top, b"DATE"),
    Absent(Context::Top, b"_UID"),
    Absent(Context::Top, b"head"),
    Absent(Context::Top, b"HEA"),
    Absent(Context::Top, b"HEADS"),
    Absent(Context::Top, b""),
    Absent(Context::Top, b"TRLR"),
    Absent(Context::Under(0), b"HEAD"),
    Absent(Context::Under(0), b"VERS"),
    Absent(Context::Under(0), b"SNOTE"),
    Absent(Context::Under(0), b"_UID"),
    Absent(Context::Under(1), b"INDI"),
    Absent(Context::Under(1), b"MARR"),
    Absent(Context::Under(1), b"GIVN"),
    Absent(Context::Under(1), b"HUSB"),
    Absent(Context::Under(1), b"AGE"),
    Absent(Context::Under(1), b"FAM"),
    Absent(Context::Under(2), b"NAME"),
    Absent(Context::Under(2), b"BIRT"),
    Absent(Context::Under(2), b"FAMC"),
    Absent(Context::Under(2), b"RESN"),
    Absent(Context::Under(3), b"NOTE"),
    Absent(Context::Under(3), b"SNOTE"),
    Absent(Context::Under(4), b"NOTE"),
    Absent(Context::Under(4), b"SUBM"),
    Absent(Context::Under(5), b"GEDC"),
    Absent(Context::Under(6), b"PHRASE"),
    Absent(Context::Under(7), b"SUBM"),
    Absent(Context::Under(8), b"NOTE"),
    Absent(Context::Under(9), b"VERS"),
    Absent(Context::Under(10), b"TIME"),
    Absent(Context::Under(12), b"NAME"),
    Absent(Context::Under(13), b"SEX"),
    Absent(Context::Under(14), b"TIME"),
    Absent(Context::Under(15), b"PHRASE"),
    Absent(Context::Under(16), b"PHRASE"),
    Absent(Context::Under(17), b"DATE"),
    Absent(Context::Under(20), b"NAME"),
    Absent(Context::Under(24), b"DATE"),
    Absent(Context::Under(25), b"LATI"),
    Absent(Context::Under(28), b"MAP"),
    Absent(Context::Under(31), b"AGE"),
    Absent(Context::Under(32), b"DATE"),
    Absent(Context::Under(34), b"CHIL"),
    Absent(Context::Under(35), b"PHRASE"),
    Absent(Context::Under(36), b"NAME"),
    Absent(Context::Under(999), b"HEAD"),
    Absent(Context::Under(65535), b"_UID"),
];

// The types that a context requires, in order.
struct Required(Context, &'static [u16]);

const REQUIRED: [Required; 8] = [
    Required(Context::Top, &[0]),
    Required(Context::Under(0), &[5]),
    Required(Context::Under(4), &[20]),
    Required(Context::Under(5), &[9]),
    Required(Context::Under(28), &[29, 30]),
    Required(Context::Under(1), &[]),
    Required(Context::Under(34), &[]),
    Required(Context::Under(35), &[]),
];

// A word, and the sets that it is of and is not of.
struct Word(&'static [u8], u16, u16);

const WORDS: [Word; 14] = [
    Word(b"M", 0, 1),
    Word(b"F", 0, 2),
    Word(b"X", 0, 3),
    Word(b"U", 0, 65535),
    Word(b"CONFIDENTIAL", 1, 0),
    Word(b"LOCKED", 1, 2),
    Word(b"PRIVACY", 1, 3),
    Word(b"AKA", 2, 0),
    Word(b"BIRTH", 2, 1),
    Word(b"IMMIGRANT", 2, 3),
    Word(b"MAIDEN", 2, 0),
    Word(b"MARRIED", 2, 1),
    Word(b"PROFESSIONAL", 2, 0),
    Word(b"OTHER", 2, 1),
];

// Words of no set.
const STRANGE: [&[u8]; 6] = [b"", b"m", b"MF", b"LOCKE", b"other", b"AKA BIRTH"];

#[test]
fn every_entry_is_told(rt: HostRuntime) {
    for Line(context, tag, typed, number, parameter, required, many) in &LINES {
        assert_eq!(rt;
            Home.row(*context, tag),
            Some(Row {
                typed: *typed,
                required: *required,
                many: *many,
            })
        );
        assert_eq!(rt; kind_number(Home.kind(*typed)), *number);
        assert_eq!(rt; kind_parameter(Home.kind(*typed)), *parameter);
    }
}

#[test]
fn no_other_entry_is_told(rt: HostRuntime) {
    for Absent(context, tag) in &ABSENT {
        assert_eq!(rt; Home.row(*context, tag), None);
    }
}

#[test]
fn required_types_are_told_in_order(rt: HostRuntime) {
    for Required(context, types) in &REQUIRED {
        assert_eq!(rt; Home.needs(*context), types.len());
        for (j, typed) in types.iter().enumerate() {
            assert_eq!(rt; Home.need(*context, j), Some(*typed));
        }
        assert_eq!(rt; Home.need(*context, types.len()), None);
    }
}

#[test]
fn types_end_with_the_last(rt: HostRuntime) {
    assert_eq!(rt; Home.types(), 35);
    assert_eq!(rt; Home.kind(35), Kind::Nothing);
    assert_eq!(rt; Home.kind(65535), Kind::Nothing);
}

#[test]
fn words_are_of_their_set_alone(rt: HostRuntime) {
    for Word(word, set, other) in &WORDS {
        assert!(rt; Home.member(*set, word));
        assert!(rt; !Home.member(*other, word));
    }
    for word in &STRANGE {
        for set in 0..3 {
            assert!(rt; !Home.member(set, word));
        }
    }
}
