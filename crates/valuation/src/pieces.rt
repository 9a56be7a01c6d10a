// The least over a code's pieces, in ten-thousandths, and rounded down once. A source, a stake and
// orders go together through these functions alone.
ghost use Rattle.std.specs.Prelude.{◌≡◌};
ghost use Rattle.std.specs.Option.{option_map};
ghost use Rattle.rates.specs.Pieces.{from_one};
ghost use Rattle.valuation.specs.Raw.{raw_of, lower, lowest, floored, Small, reach};

use crate::orders::Orders;
use crate::stake::Stake;
use crate::weighed::Weighed;
use margin::rounded_down;
use rates::RateSource;

// What the piece at a place from 1 makes, where there is one.
fn value_at<S: RateSource>(source: &S, stake: Stake, k: usize, orders: &Orders) -> Option<i128>
    ensures is { result ≡ option_map (raw_of orders.now.orders.now stake) (from_one (S.RateSource.pieces source.now stake.code) k) }
    ensures small { Small (reach stake.amount) result }
{
    let piece = source.piece(stake.code, k)?;
    Some(Weighed { stake, piece }.value(orders))
}

// The lower of two, where there are two. A `match`: of the least of a chain of the two no proof was found.
pub(crate) fn lower_of(a: Option<i128>, b: Option<i128>) -> Option<i128>
    ensures { result ≡ lower a b }
{
    match (a, b) {
        (Some(m), Some(n)) => Some(m.min(n)),
        _ => a.or(b),
    }
}

// The least over the pieces. A source says beforehand how many there may be, and gives one at a time.
pub(crate) fn least<S: RateSource>(source: &S, stake: Stake, orders: &Orders) -> Option<i128>
    ensures is { result ≡ lowest (raw_of orders.now.orders.now stake) (S.RateSource.pieces source.now stake.code) }
    ensures small { Small (reach stake.amount) result }
{
    let mut best = None;
    for k in 1..=S::MOST {
        best = lower_of(best, value_at(source, stake, k, orders));
    }
    best
}

// Rounded down; 0 where there is none. A closure, since a function of another crate is not passed by its name.
pub(crate) fn floored(best: Option<i128>) -> i128
    ensures { result ≡ floored best }
{
    best.map_or(0, |z| rounded_down(z))
}
