// A sheet of prices and exchange rates, and the source of its risk rates.
ghost use Rattle.std.specs.Prelude.{◌≤◌, length};
ghost use Rattle.margin.specs.Sheets.{Apart};
ghost use Rattle.margin.specs.Keys.{currency_code};
ghost use Rattle.valuation.specs.Apart.{Apart-prop};

use crate::listing::Listing;
use margin::Currency;

#[derive(Drop)]
pub struct Market<'s, 'c, 'l, S> {
    pub source: &'s S,
    pub currencies: &'c [Currency],
    pub listing: Listing<'l>,
    ghost few: { length currencies.now ≤ 8 },
    ghost apart: { Apart currency_code currencies.now } by { Apart-prop currency_code currencies.now },
}
