// What lines and currencies count for: at the sheet's price, or at the least that they can come to.
ghost use Rattle.std.specs.Prelude.{◌≡◌, ℕ, ◌*◌, ◌^◌, ◌≤◌, List, ℤ, unsigned_abs};
ghost use Rattle.margin.specs.declared.Instrument as instruments;
ghost use Rattle.margin.specs.declared.Order as orders;
ghost use Rattle.margin.specs.declared.Piece as pieces;
ghost use Rattle.valuation.specs.Values.{net_value, low_value, unshocked, shocked_value};

use crate::orders::Orders;
use crate::position::Position;
use crate::risk::shocked;
use rates::RateSource;

pub(crate) trait Measure {
    // Of so many units of an instrument.
    ghost line_value: { (ℕ → List pieces.Piece) → List orders.Order → instruments.Instrument → ℤ → ℤ };

    // Of an amount of a currency.
    ghost shock: { (ℕ → List pieces.Piece) → ℕ → ℤ → ℤ };

    fn line_value<S: RateSource>(source: &S, position: Position, orders: &Orders) -> i128
        ensures is { result ≡ line_value (S.RateSource.pieces source.now) orders.now.orders.now position.instrument position.line.planned }
        ensures small { unsigned_abs result ≤ 10 ^ 24 };

    fn shock<S: RateSource>(source: &S, currency: u16, amount: i128) -> i128
        requires { unsigned_abs amount ≤ 10 ^ 28 }
        ensures is { result ≡ shock (S.RateSource.pieces source.now) currency amount }
        ensures small { unsigned_abs result ≤ 3 * 10 ^ 28 };
}

pub(crate) struct Net;

impl Measure for Net {
    ghost line_value = { net_value };

    ghost shock = { unshocked };

    fn line_value<S: RateSource>(_source: &S, position: Position, _orders: &Orders) -> i128 {
        position.net()
    }

    fn shock<S: RateSource>(_source: &S, _currency: u16, amount: i128) -> i128 {
        amount
    }
}

pub(crate) struct Low;

impl Measure for Low {
    ghost line_value = { low_value };

    ghost shock = { shocked_value };

    fn line_value<S: RateSource>(source: &S, position: Position, orders: &Orders) -> i128 {
        position.low(source, orders)
    }

    fn shock<S: RateSource>(source: &S, currency: u16, amount: i128) -> i128 {
        shocked(source, currency, amount)
    }
}
