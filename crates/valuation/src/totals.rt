// The figures of a whole portfolio: its lines walked, each code looked up in the sheet, for each currency alone. Each function
// promises its bound, since its caller's sum needs it.
ghost use Rattle.std.specs.Prelude.{◌≡◌, ◌*◌, ◌^◌, ◌≤◌, unsigned_abs};
ghost use Rattle.margin.specs.Figures.{figures_of};
ghost use Rattle.margin.specs.Fillings.{worst};
ghost use Rattle.margin.specs.Holdings.{value_of, first_ratio};
ghost use Rattle.valuation.specs.Values.{value_in};
ghost use Rattle.valuation.specs.Holdings.{equity_in, roubles_in, figure_in};
ghost use Rattle.valuation.specs.Markets.{sheet_in, holding_in};

use crate::line::Line;
use crate::market::Market;
use crate::measure::{Low, Measure, Net};
use crate::orders::Orders;
use crate::portfolio::Portfolio;
use crate::position::Position;
use margin::{Currency, Figures, figures_from, wide_in_roubles};
use rates::RateSource;

impl<'s, 'c, 'l, S: RateSource> Market<'s, 'c, 'l, S> {
    // The value of a line, where it is in the sheet and priced in the currency.
    fn value_in<M: Measure>(&self, line: Line, orders: &Orders, currency: u16) -> i128
        ensures is { let pieces = S.RateSource.pieces self.now.source.now in result ≡ value_in (M.Measure.line_value pieces orders.now.orders.now) self.now.listing.instruments.now currency line }
        ensures small { unsigned_abs result ≤ 10 ^ 24 }
    {
        self.listing.priced_in(line.code, currency).map_or(
            0,
            |instrument| M::line_value(self.source, Position { instrument, line }, orders),
        )
    }

    // Cash and the values of a currency's lines. A loop, since of a signed sum by an iterator no bound is proved.
    fn equity<M: Measure>(&self, portfolio: &Portfolio, currency: u16, cash: i64) -> i128
        ensures is { let pieces = S.RateSource.pieces self.now.source.now in result ≡ equity_in (M.Measure.line_value pieces portfolio.now.orders.orders.now) self.now.listing.instruments.now portfolio.now.lines.lines.now currency cash }
        ensures small { unsigned_abs result ≤ 10 ^ 28 }
    {
        let mut sum = i128::from(cash);
        for line in portfolio.lines.lines {
            sum += self.value_in::<M>(*line, &portfolio.orders, currency);
        }
        sum
    }

    // A currency's equity after its shock, in roubles.
    fn roubles<M: Measure>(&self, portfolio: &Portfolio, currency: Currency, cash: i64) -> i128
        ensures is { let pieces = S.RateSource.pieces self.now.source.now in result ≡ roubles_in (M.Measure.line_value pieces portfolio.now.orders.orders.now) (M.Measure.shock pieces) self.now.listing.instruments.now portfolio.now.lines.lines.now currency cash }
        ensures small { unsigned_abs result ≤ 2 * 10 ^ 34 }
    {
        let equity = self.equity::<M>(portfolio, currency.code, cash);
        wide_in_roubles(M::shock(self.source, currency.code, equity), currency.fx)
    }

    // A figure of the portfolio: its currencies, each with the cash at its place.
    fn figure<M: Measure>(&self, portfolio: &Portfolio) -> i128
        ensures is { let pieces = S.RateSource.pieces self.now.source.now in result ≡ figure_in (M.Measure.line_value pieces portfolio.now.orders.orders.now) (M.Measure.shock pieces) self.now.currencies.now self.now.listing.instruments.now portfolio.now.lines.lines.now portfolio.now.cash.now }
        ensures small { unsigned_abs result ≤ 2 ^ 120 }
    {
        let mut sum: i128 = 0;
        let cash = portfolio.cash;
        for (currency, cash) in self.currencies.iter().zip(cash.iter()) {
            sum += self.roubles::<M>(portfolio, *currency, *cash);
        }
        sum
    }

    // The value of a portfolio, which no order moves.
    pub fn value(&self, portfolio: &Portfolio) -> i128
        ensures is { result ≡ value_of (sheet_in S.RateSource.pieces self.now) (holding_in self.now.currencies.now portfolio.now) }
        ensures small { unsigned_abs result ≤ 2 ^ 120 }
    {
        self.figure::<Net>(portfolio)
    }

    // The first ratio of a portfolio, which no order moves.
    pub fn first_ratio(&self, portfolio: &Portfolio) -> i128
        ensures is { result ≡ first_ratio (sheet_in S.RateSource.pieces self.now) (holding_in self.now.currencies.now portfolio.now) }
        ensures small { unsigned_abs result ≤ 2 ^ 120 }
    {
        let orders = Orders { orders: &[] };
        self.figure::<Low>(&Portfolio {
            orders,
            ..*portfolio
        })
    }

    // The worst case of a portfolio: the least first ratio over all fillings of its orders.
    pub fn worst_case(&self, portfolio: &Portfolio) -> i128
        ensures is { result ≡ worst (sheet_in S.RateSource.pieces self.now) (holding_in self.now.currencies.now portfolio.now) }
        ensures small { unsigned_abs result ≤ 2 ^ 120 }
    {
        self.figure::<Low>(portfolio)
    }

    // All figures of a portfolio.
    pub fn figures(&self, portfolio: &Portfolio) -> Figures
        ensures { result ≡ figures_of (sheet_in S.RateSource.pieces self.now) (holding_in self.now.currencies.now portfolio.now) }
    {
        let value = self.value(portfolio);
        let first = self.first_ratio(portfolio);
        figures_from(value, first, self.worst_case(portfolio))
    }
}
