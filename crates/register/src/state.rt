// The register itself. Its type keeps a sheet in force that closing accepted.
ghost use Rattle.std.specs.Prelude.{◌≡◌, ◌≤◌, false, vec_len};
ghost use Rattle.keyed.specs.Rows.{Rising};
ghost use Rattle.margin.specs.Cash.{cash_sheet};
ghost use Rattle.margin.specs.Keys.{currency_code};
ghost use Rattle.sheet.specs.Drafts.{incomplete};

use crate::records::Portfolio;
use keyed::Table;
use margin::Currency;

pub(crate) mod calls;
pub(crate) mod checks;
pub(crate) mod reads;
pub(crate) mod sheets;

#[derive(Drop)]
pub struct Register {
    pub(crate) currencies: Vec<Currency>,
    pub(crate) portfolios: Table<Portfolio>,
    ghost few: { vec_len currencies ≤ 8 },
    ghost currencies_rise: { Rising currency_code currencies.items },
    ghost complete: { incomplete (cash_sheet currencies.items) ≡ false },
}
