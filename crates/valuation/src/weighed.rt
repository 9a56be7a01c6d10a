// A stake on one piece, and what orders in its code lose there, in ten-thousandths.
ghost use Rattle.std.specs.Prelude.{◌≡◌, ◌+◌, ◌^◌, ◌≤◌, if◌then◌else◌, unsigned_abs};
ghost use Rattle.margin.specs.Orders.{on, counted_price};
ghost use Rattle.valuation.specs.Raw.{unit_loss, loss, lost, raw_of, reach};

use crate::orders::Orders;
use crate::stake::Stake;
use margin::{Order, Piece, Side};

// The piece is within the rules' bounds.
#[derive(Clone, Copy)]
pub(crate) struct Weighed {
    pub stake: Stake,
    pub piece: Piece,
    ghost weight: { piece.weight ≤ 20_000 },
    ghost allowance: { piece.allowance ≤ 100_000_000_000_000 },
}

// What a unit that is worth so much and costs so much loses, if anything.
fn unit_loss(side: Side, worth: u64, money: u64) -> u64
    ensures { result ≡ unit_loss side worth money }
{
    match side {
        Side::Buy => money.saturating_sub(worth),
        Side::Sell => worth.saturating_sub(money),
    }
}

// A buy counts at the greater of its own price and the sheet's, a sell at the lesser.
fn counted_price(price: u32, order: Order) -> u32
    ensures { result ≡ counted_price price order }
{
    match order.side {
        Side::Buy => order.price.max(price),
        Side::Sell => order.price.min(price),
    }
}

impl Weighed {
    // What the order loses at the most.
    fn loss(self, order: Order) -> u128
        ensures is { result ≡ loss self.stake.price self.piece.weight order }
        ensures small { result ≤ 2 ^ 79 }
    {
        let worth = u64::from(self.stake.price) * u64::from(self.piece.weight);
        let money = 10_000 * u64::from(counted_price(self.stake.price, order));
        u128::from(order.left) * u128::from(unit_loss(order.side, worth, money))
    }

    // What the orders in the code lose together. A loop, as the sum of the open quantities is.
    fn losses(self, orders: &Orders) -> u128
        ensures is { result ≡ lost orders.now.orders.now self.stake.code self.stake.price self.piece.weight }
        ensures small { result ≤ 2 ^ 92 }
    {
        let mut sum: u128 = 0;
        for order in orders.orders {
            if self.stake.code == order.code {
                let lost = self.loss(*order);
                sum += lost;
            }
        }
        sum
    }

    // weight × amount + price × allowance − losses
    pub(crate) fn value(self, orders: &Orders) -> i128
        ensures is { result ≡ raw_of orders.now.orders.now self.stake self.piece }
        ensures small { unsigned_abs result ≤ reach self.stake.amount }
    {
        let lost = self.losses(orders) as i128;
        i128::from(self.piece.weight) * self.stake.amount
            + i128::from(self.stake.price) * i128::from(self.piece.allowance)
            - lost
    }
}
