use super::full::Full;
use books::{Book, Home, Open, Plain};
use model::{Context, Kind, Row};
use std::process::Abort;

// A tag where it stands, and the type that it has there, if any. Such a type is not required, and many may stand there.
struct Free(Context, &'static [u8], Option<u16>);

fn rows_are<B: Book>(rt: &impl Abort, book: &B, expected: &[Free]) {
    for Free(context, tag, typed) in expected {
        let row = typed.map(|typed| Row {
            typed,
            required: false,
            many: true,
        });
        assert_eq!(rt; book.row(*context, tag), row);
    }
}

// How many types a book has, the kind of the last, and that there is nothing past it.
fn types_are<B: Book>(rt: &impl Abort, book: &B, types: u16, last: Kind) {
    assert_eq!(rt; book.types(), types as usize);
    assert_eq!(rt; book.kind(types), Kind::Nothing);
    assert_eq!(rt; book.row(Context::Under(types), b"_UID"), None);
    assert_eq!(rt; book.needs(Context::Under(types)), 0);
    assert_eq!(rt; book.kind(types.saturating_sub(1)), last);
}

const OVER_PLAIN: [Free; 5] = [
    Free(Context::Top, b"_UID", Some(0)),
    Free(Context::Top, b"NAME", Some(0)),
    Free(Context::Under(0), b"_UID", Some(0)),
    Free(Context::Under(1), b"NAME", Some(1)),
    Free(Context::Under(1), b"", Some(1)),
];

const OVER_HOME: [Free; 10] = [
    Free(Context::Top, b"_UID", Some(35)),
    Free(Context::Top, b"_", Some(35)),
    Free(Context::Top, b"UID_", None),
    Free(Context::Top, b"", None),
    Free(Context::Top, b"INDI", Some(1)),
    Free(Context::Under(34), b"_UID", Some(35)),
    Free(Context::Under(34), b"UID", None),
    Free(Context::Under(1), b"NAME", Some(12)),
    Free(Context::Under(35), b"NAME", Some(35)),
    Free(Context::Under(35), b"_UID", Some(35)),
];

const OVER_A_LAYER: [Free; 6] = [
    Free(Context::Top, b"_UID", Some(35)),
    Free(Context::Top, b"UID", None),
    Free(Context::Under(1), b"NAME", Some(12)),
    Free(Context::Under(35), b"NAME", Some(35)),
    Free(Context::Under(36), b"NAME", Some(36)),
    Free(Context::Under(36), b"_UID", Some(36)),
];

const OVER_FULL: [Free; 4] = [
    Free(Context::Top, b"_UID", None),
    Free(Context::Under(0), b"_UID", None),
    Free(Context::Under(999), b"_UID", None),
    Free(Context::Under(1000), b"NAME", None),
];

#[test]
fn a_layer_stands_over_plain(rt: HostRuntime) {
    types_are(&rt, &Plain, 1, Kind::Anything);
    let open = Open { below: Plain };
    types_are(&rt, &open, 2, Kind::Anything);
    rows_are(&rt, &open, &OVER_PLAIN);
}

#[test]
fn a_layer_stands_over_home(rt: HostRuntime) {
    let open = Open { below: Home };
    types_are(&rt, &open, 36, Kind::Anything);
    rows_are(&rt, &open, &OVER_HOME);
    assert_eq!(rt; open.kind(34), Kind::Pointer(1));
    assert_eq!(rt; open.needs(Context::Under(28)), 2);
    assert_eq!(rt; open.need(Context::Under(28), 1), Some(30));
    assert!(rt; open.member(0, b"M"));
    assert!(rt; !open.member(0, b"_M"));
}

#[test]
fn a_layer_stands_over_a_lent_book(rt: HostRuntime) {
    let home = Home;
    let open = Open { below: &home };
    types_are(&rt, &open, 36, Kind::Anything);
    rows_are(&rt, &open, &OVER_HOME);
}

#[test]
fn a_layer_stands_over_a_layer(rt: HostRuntime) {
    let open = Open {
        below: Open { below: Home },
    };
    types_are(&rt, &open, 37, Kind::Anything);
    rows_are(&rt, &open, &OVER_A_LAYER);
    assert_eq!(rt; open.kind(35), Kind::Anything);
}

#[test]
fn a_layer_over_a_full_book_adds_nothing(rt: HostRuntime) {
    let open = Open { below: Full };
    types_are(&rt, &open, 1000, Kind::Nothing);
    rows_are(&rt, &open, &OVER_FULL);
}
