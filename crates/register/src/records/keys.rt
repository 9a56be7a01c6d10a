ghost use Rattle.register.specs.Keys.{portfolio_number};

use super::Portfolio;
use keyed::Keyed;

impl Keyed for Portfolio {
    type Key = u16;

    ghost key = { portfolio_number };

    fn key(&self) -> u16 {
        self.number
    }
}
