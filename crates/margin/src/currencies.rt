// What a currency is found by.
ghost use Rattle.margin.specs.Keys.{currency_code};

use crate::Currency;
use keyed::Keyed;

impl Keyed for Currency {
    type Key = u16;

    ghost key = { currency_code };

    fn key(&self) -> u16 {
        self.code
    }
}
