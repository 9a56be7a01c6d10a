// What one line and one currency come to, by themselves.
ghost use Rattle.std.specs.Prelude.{◌≡◌, ◌*◌, ◌^◌, ◌≤◌, unsigned_abs};
ghost use Rattle.margin.specs.Holdings as holdings;
ghost use Rattle.margin.specs.Fillings as fillings;
ghost use Rattle.valuation.specs.Values.{any_sheet, one_line};

use crate::line::Line;
use crate::orders::Orders;
use crate::pieces::{floored, least};
use crate::position::Position;
use crate::stake::Stake;
use margin::{Instrument, ROUBLE};
use rates::RateSource;

// The least that a line can come to, with the cash of its orders.
pub fn low<S: RateSource>(source: &S, instrument: Instrument, line: Line, orders: &Orders) -> i128
    ensures is { result ≡ fillings.low (any_sheet (S.RateSource.pieces source.now)) (one_line line.planned orders.now.orders.now) instrument }
    ensures small { unsigned_abs result ≤ 10 ^ 24 }
{
    Position { instrument, line }.low(source, orders)
}

// The worth of a line: the least over its pieces.
pub fn worth<S: RateSource>(source: &S, instrument: Instrument, line: Line) -> i128
    ensures is { result ≡ holdings.worth (holdings.pieces_of (any_sheet (S.RateSource.pieces source.now)) instrument) instrument.price line.planned }
    ensures small { unsigned_abs result ≤ 10 ^ 24 }
{
    low(source, instrument, line, &Orders { orders: &[] })
}

// An amount of a currency under that currency's own pieces. The rouble has none.
pub fn shocked<S: RateSource>(source: &S, currency: u16, amount: i128) -> i128
    requires { unsigned_abs amount ≤ 10 ^ 28 }
    ensures is { result ≡ holdings.shocked (any_sheet (S.RateSource.pieces source.now)) currency amount }
    ensures small { unsigned_abs result ≤ 3 * 10 ^ 28 }
{
    if currency == ROUBLE {
        return amount;
    }
    let stake = Stake {
        code: currency,
        price: 1,
        amount,
    };
    floored(least(source, stake, &Orders { orders: &[] }))
}
