// The draft of the next sheet, with the table that goes with it: a fixed array, as a sheet has at most 8 currencies.
ghost use Rattle.std.specs.Prelude.{◌≤◌, take};
ghost use Rattle.keyed.specs.Rows.{Rising};
ghost use Rattle.margin.specs.Keys.{currency_code};

use margin::Currency;
use sheet::Draft;

pub(crate) mod entering;

pub struct Drafting {
    pub(crate) draft: Draft,
    pub(crate) table: [Currency; 8],
    ghost few: { draft.currencies ≤ 8 },
    ghost rising: { Rising currency_code (take draft.currencies table) },
}
