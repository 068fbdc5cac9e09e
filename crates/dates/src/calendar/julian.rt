ghost use Rattle.std.specs.Prelude.{true, refl};
ghost use Rattle.model.specs.Kinds.{julian};

use crate::calendar::Calendar;
use crate::calendar::gregorian::ROMAN_MONTHS;

pub struct Julian;

impl Calendar for Julian {
    const NAME: &'static [u8] = b"JULIAN";

    ghost BCE = { true };

    const BCE: bool = true;

    const MONTHS: &'static [&'static [u8]] = &ROMAN_MONTHS;

    ghost counts_back = { refl };

    ghost reckoning = { julian };

    fn full_name() -> &'static [u8] {
        Self::NAME
    }

    fn all_months() -> &'static [&'static [u8]] {
        Self::MONTHS
    }
}
