// How large a portfolio is.
ghost use Rattle.std.specs.Prelude.{◌≡◌, ◌^◌, ◌≤◌, []};
ghost use Rattle.margin.specs.Limits as limits;
ghost use Rattle.valuation.specs.Holdings.{sheet_of, holding_of};
ghost use Rattle.valuation.specs.Grosses.{gross_of, gross_in};

use crate::line::Line;
use crate::lines::Lines;
use crate::listing::Listing;
use crate::orders::Orders;
use crate::position::Position;

impl Position {
    // The planned and open quantities at the highest of the prices.
    fn gross(self, orders: &Orders) -> u128
        ensures is { result ≡ gross_of orders.now.orders.now self.instrument self.line.planned }
        ensures small { result ≤ 2 ^ 78 }
    {
        let code = self.instrument.code;
        let part = orders.part(code);
        let units = u128::from(self.line.planned.unsigned_abs()) + part.open_units(code);
        units * u128::from(part.highest(code, self.instrument.price))
    }
}

impl<'a> Listing<'a> {
    // The gross of a line, where it is in the sheet and priced in the currency. A `match`: under `map_or` no proof was found.
    fn gross_in(&self, line: Line, orders: &Orders, currency: u16) -> u128
        ensures is { result ≡ gross_in orders.now.orders.now self.now.instruments.now currency line }
        ensures small { result ≤ 2 ^ 78 }
    {
        match self.priced_in(line.code, currency) {
            Some(instrument) => Position { instrument, line }.gross(orders),
            None => 0,
        }
    }

    // The gross of a currency, with this much cash in it. A loop, as the sum of the open quantities is.
    pub fn gross(&self, lines: &Lines, orders: &Orders, currency: u16, cash: i64) -> u128
        ensures is { result ≡ limits.gross (sheet_of (λ _. []) [] self.now.instruments.now) (holding_of (λ _. cash) lines.now.lines.now orders.now.orders.now) currency }
        ensures small { result ≤ 2 ^ 92 }
    {
        let mut sum = u128::from(cash.unsigned_abs());
        for line in lines.lines {
            sum += self.gross_in(*line, orders, currency);
        }
        sum
    }
}
