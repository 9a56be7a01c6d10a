// What an instrument is found by.
ghost use Rattle.margin.specs.Keys.{instrument_code};

use crate::Instrument;
use keyed::Keyed;

impl Keyed for Instrument {
    type Key = u16;

    ghost key = { instrument_code };

    fn key(&self) -> u16 {
        self.code
    }
}
