ghost use Rattle.std.specs.Prelude.{◌≡◌};
ghost use Rattle.judging.specs.Findings.{rule_number, missing_type};

// A rule of a book that a card breaks.
#[derive(Clone, Copy, PartialEq, Eq, Debug)]
pub enum Rule {
    // its tag has a row
    Known,
    // its payload is of its kind
    Taken,
    // its pointer names a record of the type that its kind asks for
    Aimed,
    // it follows none of its type, unless many may stand there
    Single,
    // it has each type that it needs; this one is missing
    Needed(u16),
    // it has a payload or a substructure, unless it may stand empty
    Filled,
}

impl Rule {
    // The number of the fault that tells it: people are told it, and an enum of which a variant holds a type casts to none.
    pub fn number(&self) -> u8
        ensures { result ≡ rule_number self.now }
    {
        match *self {
            Rule::Known => 14,
            Rule::Taken => 15,
            Rule::Aimed => 16,
            Rule::Single => 17,
            Rule::Needed(_) => 18,
            Rule::Filled => 19,
        }
    }

    // The type that is missing.
    pub fn missing(&self) -> Option<u16>
        ensures { result ≡ missing_type self.now }
    {
        match *self {
            Rule::Needed(typed) => Some(typed),
            _ => None,
        }
    }
}

// What a judge finds: a rule, and the position of the first card that breaks it.
#[derive(Clone, Copy, PartialEq, Eq, Debug)]
pub struct Finding {
    pub rule: Rule,
    pub card: usize,
}
