// Standing orders, and those of them in a code.
ghost use Rattle.std.specs.Prelude.{◌≡◌, ◌^◌, ◌≤◌, length, if◌then◌else◌, filter};
ghost use Rattle.margin.specs.Numbers.{count};
ghost use Rattle.margin.specs.Orders.{on};
ghost use Rattle.margin.specs.Limits as limits;

use margin::Order;

#[derive(Clone, Copy)]
pub struct Orders<'a> {
    pub orders: &'a [Order],
    ghost few: { length orders.now ≤ 8192 },
}

impl<'a> Orders<'a> {
    // The orders from the first in the code to the last. Where orders are grouped by code these are just the code's.
    pub(crate) fn part(&self, code: u16) -> Orders<'a>
        ensures { filter (on code) result.orders.now ≡ filter (on code) self.now.orders.now }
    {
        let orders = self.orders;
        let start = orders
            .iter()
            .position(|order| code == order.code)
            .unwrap_or(orders.len());
        let rest = &orders[start..];
        let end = rest
            .iter()
            .rposition(|order| code == order.code)
            .map_or(0, |last| last + 1);
        Orders {
            orders: &rest[..end],
        }
    }

    // The open quantities of the orders in the code. A loop: of an iterator's sum the value is proved, and the bound is not,
    // since the range of each order's field is not known there.
    pub(crate) fn open_units(&self, code: u16) -> u128
        ensures is { result ≡ count (λ o. (if on code o then o.left else 0)) self.now.orders.now }
        ensures small { result ≤ 2 ^ 45 }
    {
        let mut sum: u128 = 0;
        for order in self.orders {
            if code == order.code {
                sum += u128::from(order.left);
            }
        }
        sum
    }

    // The greatest of a price and of the own prices of the orders in the code.
    pub(crate) fn highest(&self, code: u16, price: u32) -> u32
        ensures { result ≡ limits.highest price (filter (on code) self.now.orders.now) }
    {
        self.orders.iter().fold(price, |best, order| {
            if code == order.code {
                best.max(order.price)
            } else {
                best
            }
        })
    }
}
