// A draft and a closed sheet: how many of the places of their tables they use.
ghost use Rattle.std.specs.Prelude.{◌≡◌, IfOk, MatchResult};
ghost use Rattle.margin.specs.Cash.{cash_sheet};
ghost use Rattle.sheet.specs.Drafts.{entries, InOrder, enters, EnteredIn, has_rouble_at_par, has_unrated, incomplete, closes, AsClosed};

use crate::faults::{SheetCause, SheetFault};
use book::check_currency;
use keyed::{add, find};
use margin::{Currency, ROUBLE};

// The clauses have the number itself, so that a reader sees it.
const MOST_CURRENCIES: usize = 8;

const PAR: u32 = 10_000;

// A moved value of plain numbers, with its table given to each call: a rule of the project, whose memory is fixed.
pub struct Draft {
    currencies: usize,
}

// A moved value of plain numbers, as a draft is: only closing makes one, and it is spent once.
pub struct ClosedSheet {
    currencies: usize,
}

fn has_rouble_at_par(entries: &[Currency]) -> bool
    ensures { result ≡ has_rouble_at_par (cash_sheet entries.now) }
{
    entries
        .iter()
        .any(|currency| currency.code == ROUBLE && currency.fx == PAR)
}

// No code has pieces, as no rate can be entered.
fn has_unrated(entries: &[Currency]) -> bool
    ensures { result ≡ has_unrated (cash_sheet entries.now) }
{
    entries.iter().any(|currency| currency.code != ROUBLE)
}

fn is_incomplete(entries: &[Currency]) -> bool
    ensures { result ≡ incomplete (cash_sheet entries.now) }
{
    !has_rouble_at_par(entries) || has_unrated(entries)
}

impl Draft {
    // An empty draft.
    pub fn begin() -> Draft
        ensures { result.currencies ≡ 0 }
    {
        Draft { currencies: 0 }
    }

    // The entries: the first places of the table that goes with the draft.
    fn entries<'a>(&self, table: &'a [Currency]) -> &'a [Currency]
        ensures { result.now ≡ entries self.now table.now }
    {
        &table[..self.currencies.min(table.len())]
    }

    // Enters a currency, in the order of codes.
    pub fn enter_currency(
        &mut self,
        table: &mut [Currency],
        currency: Currency,
    ) -> Result<(), SheetFault>
        ensures answer { InOrder self.old table.old → result ≡ enters self.old table.old currency.code currency.fx }
        ensures tables { MatchResult result (λ _. InOrder self.old table.old → EnteredIn self.old table.old currency.code currency.fx self.new table.new) (λ _. (self.new ≡ self.old) × (table.new ≡ table.old)) }
    {
        check_currency(currency.code, currency.fx, 0)?;
        let Err(at) = find(self.entries(table), currency.code) else {
            return Err(SheetCause::Entered.into());
        };
        if self.currencies >= table.len().min(MOST_CURRENCIES) {
            return Err(SheetCause::Full.into());
        }
        add(table, self.currencies, at, currency);
        self.currencies += 1;
        Ok(())
    }

    // Closes the draft. A draft that is not complete comes back.
    pub fn close(self, table: &[Currency]) -> Result<ClosedSheet, (SheetFault, Draft)>
        ensures answer { result ≡ closes self table.now }
        ensures closed { InOrder self table.now → IfOk result (λ c. (c.currencies ≡ self.currencies) × AsClosed c table.now) }
    {
        let entries = self.entries(table);
        if is_incomplete(entries) {
            return Err((SheetCause::Incomplete.into(), self));
        }
        let Draft { currencies: _ } = self;
        Ok(ClosedSheet {
            currencies: entries.len(),
        })
    }

    // Ends a draft that is not wanted any more. It has no `Drop`, so that none is lost unseen.
    pub fn discard(self) {
        let Draft { currencies: _ } = self;
    }
}

impl ClosedSheet {
    // How many currencies the sheet has.
    pub fn currencies(&self) -> usize
        ensures { result ≡ self.now.currencies }
    {
        self.currencies
    }

    // Ends a closed sheet that is spent, or not wanted any more. It has no `Drop`, as a draft has none.
    pub fn discard(self) {
        let ClosedSheet { currencies: _ } = self;
    }
}
