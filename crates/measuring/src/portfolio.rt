// The six figures of a portfolio with eight lines and four orders, in roubles and dollars.
ghost use Rattle.std.specs.Prelude.{◌≡◌, ◌≤◌, length};
ghost use Rattle.keyed.specs.Rows.{Rising};
ghost use Rattle.margin.specs.Keys.{currency_code, instrument_code};
ghost use Rattle.margin.specs.Sheets.{Apart};
ghost use Rattle.margin.specs.Figures.{figures_of};
ghost use Rattle.margin.specs.Cash.{cash_by};
ghost use Rattle.valuation.specs.Keys.{line_code};
ghost use Rattle.valuation.specs.Holdings.{sheet_of, holding_of};
ghost use Rattle.sources.specs.Posted.{posted_says};
ghost use Rattle.measuring.specs.Lines.{posted_rate};
ghost use Rattle.measuring.specs.Portfolios.{figures_under, InHalves, Tells};

use crate::numbers::Wide;
use crate::placed::{instruments, lines};
use crate::requests::{Request, four};
use crate::same_rate::SameRate;
use crate::units::Units;
use book::PostedRate;
use margin::{Currency, Figures, Instrument, Order, ROUBLE};
use rates::RateSource;
use sources::{PostedRow, RateRow};
use valuation::{Line, Lines, Listing, Market, Orders, Portfolio};

const DOLLAR: u16 = 840;

// The figures as C takes them: all 0 where they are not known.
#[derive(Clone, Copy)]
#[repr(C)]
pub struct Told {
    pub known: bool,
    pub value: Wide,
    pub initial: Wide,
    pub minimum: Wide,
    pub first: Wide,
    pub second: Wide,
    pub worst: Wide,
}

const NOUGHTS: Figures = Figures {
    value: 0,
    initial: 0,
    minimum: 0,
    first: 0,
    second: 0,
    worst: 0,
};

// The figures, and whether they are known.
fn in_halves(known: bool, figures: Figures) -> Told
    ensures { InHalves known figures result }
{
    Told {
        known,
        value: Wide::from(figures.value),
        initial: Wide::from(figures.initial),
        minimum: Wide::from(figures.minimum),
        first: Wide::from(figures.first),
        second: Wide::from(figures.second),
        worst: Wide::from(figures.worst),
    }
}

// Cash in roubles and in dollars, and a dollar's exchange rate in ten-thousandths of a rouble.
#[derive(Clone, Copy)]
#[repr(C)]
pub struct Cash {
    pub roubles: i64,
    pub dollars: i64,
    pub fx: u32,
}

// Each reference has a lifetime of its own.
fn valued<S: RateSource>(
    source: &S,
    currencies: &[Currency],
    instruments: &[Instrument],
    lines: &[Line],
    orders: &[Order],
    cash: &[i64; 8],
) -> Figures
    requires currencies { length currencies.now ≤ 8 }
    requires currencies_apart { Apart currency_code currencies.now }
    requires rising { Rising instrument_code instruments.now }
    requires lines { length lines.now ≤ 8192 }
    requires lines_apart { Apart line_code lines.now }
    requires orders { length orders.now ≤ 8192 }
    ensures { result ≡ figures_of (sheet_of (S.RateSource.pieces source.now) currencies.now instruments.now) (holding_of (cash_by currencies.now cash.now) lines.now orders.now) }
{
    let listing = Listing { instruments };
    let market = Market {
        source,
        currencies,
        listing,
    };
    let lines = Lines { lines };
    let orders = Orders { orders };
    market.figures(&Portfolio {
        lines,
        orders,
        cash,
    })
}

// The sheet and the portfolio that the records say, valued.
fn figures<R: RateRow>(
    rate: R::Rate,
    cash: Cash,
    units: &[Units],
    requests: &[Request],
) -> Option<Figures>
    ensures { result ≡ figures_under (R.says rate) cash units.now requests.now }
{
    let row = R::checked(rate).ok()?;
    let instruments = instruments(units)?;
    let lines = lines(units)?;
    let orders = four(requests)?;
    let rouble = Currency {
        code: ROUBLE,
        fx: 10_000,
    };
    let dollar = Currency {
        code: DOLLAR,
        fx: cash.fx,
    };
    let cash = [cash.roubles, cash.dollars, 0, 0, 0, 0, 0, 0];
    Some(valued(
        &SameRate { row },
        &[rouble, dollar],
        &instruments,
        &lines,
        &orders,
        &cash,
    ))
}

// The figures of eight lines and four orders, where every code has the same posted rate. They are not known where a number
// is out of its range, or where lines or orders are not so many.
#[unsafe(no_mangle)]
pub extern "C" fn figures_posted(
    plus: u16,
    minus: u16,
    cash: Cash,
    units: &[Units],
    requests: &[Request],
) -> Told
    ensures { Tells (figures_under (posted_says (posted_rate 840 plus minus)) cash units.now requests.now) result }
{
    let rate = PostedRate {
        code: DOLLAR,
        plus,
        minus,
    };
    let found = figures::<PostedRow>(rate, cash, units, requests);
    in_halves(found.is_some(), found.unwrap_or(NOUGHTS))
}
