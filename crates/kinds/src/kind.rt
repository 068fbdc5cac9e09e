ghost use Rattle.std.specs.Prelude.{◌≡◌};
ghost use Rattle.model.specs.Kinds.{may_be_emptied};
ghost use Rattle.model.specs.Grammar.{takes_nothing, takes_lines, takes_pointers};
ghost use Rattle.model.specs.Removal.{is_pointer_kind};

use model::Kind;

// Whether the payload of this kind can go from a structure that has to stay.
pub fn may_be_emptied(kind: Kind) -> bool
    ensures { result ≡ may_be_emptied kind }
{
    matches!(
        kind,
        Kind::Text
            | Kind::Flag
            | Kind::Texts
            | Kind::Date
            | Kind::Period
            | Kind::Age
            | Kind::Anything
    )
}

// Whether a structure of this kind may stand without a payload.
pub fn takes_nothing(kind: Kind) -> bool
    ensures { result ≡ takes_nothing kind }
{
    matches!(kind, Kind::Nothing) || may_be_emptied(kind)
}

pub fn is_pointer(kind: Kind) -> bool
    ensures { result ≡ is_pointer_kind kind }
{
    matches!(kind, Kind::Pointer(_))
}

pub fn takes_pointers(kind: Kind) -> bool
    ensures { result ≡ takes_pointers kind }
{
    matches!(kind, Kind::Pointer(_) | Kind::Anything)
}

// Whether a text of several lines is taken.
pub fn takes_lines(kind: Kind) -> bool
    ensures { result ≡ takes_lines kind }
{
    matches!(kind, Kind::Text | Kind::Anything)
}
