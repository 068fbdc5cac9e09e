ghost use Rattle.std.specs.Prelude.{false, refl};
ghost use Rattle.model.specs.Kinds.{hebrew};

use crate::calendar::Calendar;

pub struct Hebrew;

impl Calendar for Hebrew {
    const NAME: &'static [u8] = b"HEBREW";

    ghost BCE = { false };

    const BCE: bool = false;

    const MONTHS: &'static [&'static [u8]] = &[
        b"TSH", b"CSH", b"KSL", b"TVT", b"SHV", b"ADR", b"ADS", b"NSN", b"IYR", b"SVN", b"TMZ",
        b"AAV", b"ELL",
    ];

    ghost counts_back = { refl };

    ghost reckoning = { hebrew };

    fn full_name() -> &'static [u8] {
        Self::NAME
    }

    fn all_months() -> &'static [&'static [u8]] {
        Self::MONTHS
    }
}
