use books::{Book, NoSuchBook, Shelf};
use model::{Context, Kind};

// The book of each name asks what it should, and prints as that name.
#[test]
fn each_book_has_a_name(rt: HostRuntime) {
    let named = [
        ("home", Shelf::Home, 35, None),
        ("plain", Shelf::Plain, 1, Some(0)),
        ("open", Shelf::Open, 36, Some(35)),
    ];
    for (name, shelf, types, under_top) in named {
        assert_eq!(rt; name.parse::<Shelf>(), Ok(shelf));
        assert_eq!(rt; shelf.name(), name);
        let printed = shelf.to_string(rt.alloc());
        assert!(rt; printed.is_ok_and(|printed| printed.as_str() == name));
        assert_eq!(rt; shelf.types(), types);
        assert_eq!(rt;
            shelf.row(Context::Top, b"_UID").map(|row| row.typed),
            under_top
        );
    }
    assert_eq!(rt; Shelf::Open.kind(35), Kind::Anything);
    assert_eq!(rt; Shelf::Home.needs(Context::Under(28)), 2);
    assert_eq!(rt; Shelf::Home.need(Context::Under(28), 1), Some(30));
    assert!(rt; Shelf::Open.member(0, b"M"));
}

#[test]
fn no_other_name_has_a_book(rt: HostRuntime) {
    assert_eq!(rt; "Home".parse::<Shelf>(), Err(NoSuchBook));
    assert_eq!(rt; "".parse::<Shelf>(), Err(NoSuchBook));
}
