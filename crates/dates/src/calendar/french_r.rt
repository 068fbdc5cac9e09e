ghost use Rattle.std.specs.Prelude.{false, refl};
ghost use Rattle.model.specs.Kinds.{french};

use crate::calendar::Calendar;

pub struct FrenchR;

impl Calendar for FrenchR {
    const NAME: &'static [u8] = b"FRENCH_R";

    ghost BCE = { false };

    const BCE: bool = false;

    const MONTHS: &'static [&'static [u8]] = &[
        b"VEND", b"BRUM", b"FRIM", b"NIVO", b"PLUV", b"VENT", b"GERM", b"FLOR", b"PRAI", b"MESS",
        b"THER", b"FRUC", b"COMP",
    ];

    ghost counts_back = { refl };

    ghost reckoning = { french };

    fn full_name() -> &'static [u8] {
        Self::NAME
    }

    fn all_months() -> &'static [&'static [u8]] {
        Self::MONTHS
    }
}
