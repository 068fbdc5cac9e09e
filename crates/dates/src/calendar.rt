ghost use Rattle.std.specs.Prelude.{◌≡◌, Bool, map};
ghost use Rattle.model.specs.Kinds.{Calendar as Reckoning};

pub mod french_r;
pub mod gregorian;
pub mod hebrew;
pub mod julian;

// A calendar that a date may be written in. It is a rule of this project that a calendar's data are its constants; a constant of
// bytes has no value in a contract, so beside the name stands a function that answers it, and beside the months another.
pub trait Calendar {
    // The word before a date.
    const NAME: &'static [u8];

    ghost BCE: { Bool };

    // Whether years are also counted back from the first.
    const BCE: bool;

    const MONTHS: &'static [&'static [u8]];

    ghost reckoning: { Reckoning };

    fn full_name() -> &'static [u8]
        ensures { result.now ≡ reckoning.name };

    fn all_months() -> &'static [&'static [u8]]
        ensures { map (λ x. x.now) result.now ≡ reckoning.months };

    ghost counts_back: { BCE ≡ reckoning.bce };
}
