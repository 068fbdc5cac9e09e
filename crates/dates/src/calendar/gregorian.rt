ghost use Rattle.std.specs.Prelude.{true, refl};
ghost use Rattle.model.specs.Kinds.{gregorian};

use crate::calendar::Calendar;

// The months of this calendar and of the Julian.
pub const ROMAN_MONTHS: [&[u8]; 12] = [
    b"JAN", b"FEB", b"MAR", b"APR", b"MAY", b"JUN", b"JUL", b"AUG", b"SEP", b"OCT", b"NOV", b"DEC",
];

pub struct Gregorian;

impl Calendar for Gregorian {
    const NAME: &'static [u8] = b"GREGORIAN";

    ghost BCE = { true };

    const BCE: bool = true;

    const MONTHS: &'static [&'static [u8]] = &ROMAN_MONTHS;

    ghost counts_back = { refl };

    ghost reckoning = { gregorian };

    fn full_name() -> &'static [u8] {
        Self::NAME
    }

    fn all_months() -> &'static [&'static [u8]] {
        Self::MONTHS
    }
}
