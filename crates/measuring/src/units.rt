// So many units of an instrument, as C passes them.
ghost use Rattle.std.specs.Prelude.{◌≡◌};
ghost use Rattle.measuring.specs.Units.{instrument_of, IsLine};

use margin::{Instrument, Kind};
use valuation::Line;

const MOST_UNITS: u64 = 200_000_000_000;

#[derive(Clone, Copy)]
#[repr(C)]
pub struct Units {
    pub planned: i64,
    pub price: u32,
    pub currency: u16,
    pub off_list: bool,
}

impl Units {
    pub(crate) fn instrument(self, code: u16) -> Instrument
        ensures { result ≡ instrument_of code self }
    {
        Instrument {
            code,
            currency: self.currency,
            kind: if self.off_list {
                Kind::OffList
            } else {
                Kind::Listed
            },
            price: self.price,
        }
    }

    // The line, where there are not too many units.
    pub(crate) fn line(self, code: u16) -> Option<Line>
        ensures { IsLine code self result }
    {
        if self.planned.unsigned_abs() <= MOST_UNITS {
            Some(Line {
                code,
                planned: self.planned,
            })
        } else {
            None
        }
    }
}
