// A line with the instrument of its code.
ghost use Rattle.std.specs.Prelude.{◌≡◌, ◌^◌, ◌≤◌, ◌&&◌, pos, ◌*ℤ◌, if◌then◌else◌, Some, None, unsigned_abs};
ghost use Rattle.margin.specs.Numbers.{below};
ghost use Rattle.margin.specs.Sheets.{off_list};
ghost use Rattle.margin.specs.Fillings as fillings;
ghost use Rattle.valuation.specs.Raw.{raw_of, nought, Small, reach};
ghost use Rattle.valuation.specs.Values.{any_sheet, one_line};

use crate::line::Line;
use crate::orders::Orders;
use crate::pieces::{floored, least, lower_of};
use crate::stake::Stake;
use crate::weighed::Weighed;
use margin::{Instrument, Kind, Piece};
use rates::RateSource;

// The piece that counts nothing.
const NOUGHT: Piece = Piece {
    weight: 0,
    allowance: 0,
};

#[derive(Clone, Copy)]
pub(crate) struct Position {
    pub instrument: Instrument,
    pub line: Line,
}

fn is_off_list(kind: Kind) -> bool
    ensures { result ≡ off_list kind }
{
    matches!(kind, Kind::OffList)
}

// Off the liquid list a piece that counts nothing joins the code's own.
fn joining(kind: Kind, stake: Stake, orders: &Orders) -> Option<i128>
    ensures is { result ≡ (if off_list kind then Some (raw_of orders.now.orders.now stake nought) else None) }
    ensures small { Small (reach stake.amount) result }
{
    let nought = Weighed {
        stake,
        piece: NOUGHT,
    };
    if is_off_list(kind) {
        Some(nought.value(orders))
    } else {
        None
    }
}

impl Position {
    fn stake(self) -> Stake
        ensures code { result.code ≡ self.instrument.code }
        ensures price { result.price ≡ self.instrument.price }
        ensures amount { result.amount ≡ pos self.instrument.price *ℤ self.line.planned }
        ensures small { unsigned_abs result.amount ≤ 10 ^ 21 }
    {
        Stake {
            code: self.instrument.code,
            price: self.instrument.price,
            amount: i128::from(self.instrument.price) * i128::from(self.line.planned),
        }
    }

    // Off the liquid list a long position counts for nothing.
    fn counted(self) -> i64
        ensures is { result ≡ (if off_list self.instrument.kind && below (pos 0) self.line.planned then pos 0 else self.line.planned) }
        ensures small { unsigned_abs result ≤ 200_000_000_000 }
    {
        if is_off_list(self.instrument.kind) && self.line.planned > 0 {
            0
        } else {
            self.line.planned
        }
    }

    // The counted quantity at the sheet's price.
    pub(crate) fn net(self) -> i128
        ensures is { result ≡ (if off_list self.instrument.kind && below (pos 0) self.line.planned then pos 0 else self.line.planned) *ℤ pos self.instrument.price }
        ensures small { unsigned_abs result ≤ 10 ^ 24 }
    {
        i128::from(self.counted()) * i128::from(self.instrument.price)
    }

    // The least that a line can come to, with the cash of its orders. It walks the orders once to find the line's own.
    pub(crate) fn low<S: RateSource>(self, source: &S, orders: &Orders) -> i128
        ensures is { result ≡ fillings.low (any_sheet (S.RateSource.pieces source.now)) (one_line self.line.planned orders.now.orders.now) self.instrument }
        ensures small { unsigned_abs result ≤ 10 ^ 24 }
    {
        let part = orders.part(self.instrument.code);
        let stake = self.stake();
        let first = joining(self.instrument.kind, stake, &part);
        floored(lower_of(first, least(source, stake, &part)))
    }
}
