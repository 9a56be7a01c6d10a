// The figures of a portfolio that holds cash alone, under a sheet with no instrument and no rates.
ghost use Rattle.std.specs.Prelude.{◌≡◌, ◌≤◌, length, pos, if◌then◌else◌, nat_eq};
ghost use Rattle.margin.specs.Sheets.{Apart, rouble};
ghost use Rattle.margin.specs.Figures.{figures_of};
ghost use Rattle.margin.specs.Cash.{cash_sheet, cash_by, cash_holding};

use crate::ratios::figures_from;
use crate::roubles::{ROUBLE, in_roubles};
use crate::{Currency, Figures};

// Cash after the shock of its currency: the rouble has none, and of no other code is a rate known.
fn shocked(currency: u16, cash: i64) -> i64
    ensures { result ≡ (if nat_eq currency rouble then cash else pos 0) }
{
    if currency == ROUBLE { cash } else { 0 }
}

// All figures of a portfolio of cash, which is given by the place of its currency: a fixed array, so that a portfolio wants no
// memory of its own. It has no orders, so its worst case is its first ratio.
pub fn cash_figures(currencies: &[Currency], cash: &[i64; 8]) -> Figures
    ensures { length currencies.now ≤ 8 → Apart (λ c. c.code) currencies.now → result ≡ figures_of (cash_sheet currencies.now) (cash_holding (cash_by currencies.now cash.now)) }
{
    let mut value: i128 = 0;
    let mut first: i128 = 0;
    for (currency, cash) in currencies.iter().zip(cash) {
        value += in_roubles(*cash, currency.fx);
        first += in_roubles(shocked(currency.code, *cash), currency.fx);
    }
    figures_from(value, first, first)
}
