ghost use Rattle.std.specs.Prelude.{◌≡◌};
ghost use Rattle.model.specs.Books.{kind_number, number_of_kind};

use model::Kind;

// The number of a kind, for those who exchange books. A match, since a kind that holds a number of its own casts to none.
pub fn kind_number(kind: Kind) -> u8
    ensures { result ≡ kind_number kind }
{
    match kind {
        Kind::Nothing => 0,
        Kind::Text => 1,
        Kind::Flag => 2,
        Kind::Integer => 3,
        Kind::Word(_) => 4,
        Kind::Words(_) => 5,
        Kind::Texts => 6,
        Kind::Date => 7,
        Kind::Period => 8,
        Kind::Exact => 9,
        Kind::Time => 10,
        Kind::Age => 11,
        Kind::Name => 12,
        Kind::Version => 13,
        Kind::Pointer(_) => 14,
        Kind::Anything => 15,
    }
}

// What a kind is of: the set of a word or of a list of words, the type of what a pointer names, and 0 for every other kind.
// No Option, since books are exchanged with this 0.
pub fn kind_parameter(kind: Kind) -> u16
    ensures { result ≡ number_of_kind kind }
{
    match kind {
        Kind::Word(set) | Kind::Words(set) => set,
        Kind::Pointer(typed) => typed,
        Kind::Nothing
        | Kind::Text
        | Kind::Flag
        | Kind::Integer
        | Kind::Texts
        | Kind::Date
        | Kind::Period
        | Kind::Exact
        | Kind::Time
        | Kind::Age
        | Kind::Name
        | Kind::Version
        | Kind::Anything => 0,
    }
}
