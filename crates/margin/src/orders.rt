// What a standing order is found by.
ghost use Rattle.margin.specs.Keys.{order_number};

use crate::Order;
use keyed::Keyed;

impl Keyed for Order {
    type Key = u32;

    ghost key = { order_number };

    fn key(&self) -> u32 {
        self.number
    }
}
