// How a closed sheet opens the register, and how a later one is put in force. A closed sheet is plain numbers and its table
// its caller's, so each call asks that the table is as closing left it.
ghost use Rattle.std.specs.Prelude.{◌≡◌, min, not, [], ◌∷◌, length, IfOk, vec_len, MatchResult};
ghost use Rattle.book.specs.Checks.{check, first_of};
ghost use Rattle.keyed.specs.Tables.{Fresh};
ghost use Rattle.margin.specs.Cash.{cash_sheet};
ghost use Rattle.rules.specs.Calls.{put_in_force};
ghost use Rattle.rules.specs.Histories.{History, Places, opened_with, asked};
ghost use Rattle.sheet.specs.declared.faults.SheetCause.TheVariants.{Unfit};
ghost use Rattle.sheet.specs.Faults.{refusal};
ghost use Rattle.sheet.specs.Drafts.{AsClosed, closed_entries};
ghost use Rattle.register.specs.Keys.{portfolio_number};
ghost use Rattle.register.specs.State.{Unchanged, Begins, Puts};
ghost use Rattle.register.specs.Answers.{same_codes, puts};
ghost use Rattle.register.specs.Runs.{said_put, Reached, Run};

use super::Register;
use crate::faults::RegisterFault;
use crate::records::Portfolio;
use keyed::Table;
use margin::Currency;
use sheet::{ClosedSheet, SheetCause, SheetFault};
use std::alloc::{AllocError, Global};

// The clauses have the number itself, so that a reader sees it.
const MOST_PORTFOLIOS: usize = 1_024;

// The memory of a register with no portfolio: all that it will ever want.
fn begun(
    heap: Global,
    entries: &[Currency],
    places: usize,
) -> Result<(Vec<Currency>, Table<Portfolio>), AllocError>
    ensures { IfOk result (λ m. (m.0.items ≡ entries.now) × Fresh portfolio_number m.1 (min places 1024)) }
{
    let currencies = Vec::from_slice(heap, entries)?;
    let rows = vec![in heap; Portfolio::empty(0); places.min(MOST_PORTFOLIOS)]?;
    Ok((currencies, Table::new(rows, MOST_PORTFOLIOS)))
}

// By their lengths and `all`: of the codes' own `eq` no proof closed.
fn has_same_codes(ours: &[Currency], theirs: &[Currency]) -> bool
    ensures { result ≡ same_codes ours.now theirs.now }
{
    ours.len() == theirs.len()
        && ours
            .iter()
            .zip(theirs)
            .all(|(ours, theirs)| ours.code == theirs.code)
}

// The refusal of a sheet whose currencies are not the register's.
fn fit(ours: &[Currency], theirs: &[Currency]) -> Result<(), SheetFault>
    ensures { result ≡ first_of (check (not (same_codes ours.now theirs.now)) (refusal Unfit) ∷ []) tt }
{
    if has_same_codes(ours, theirs) {
        return Ok(());
    }
    Err(SheetCause::Unfit.into())
}

// Writes the entries in the place of as many.
fn overwrite(currencies: &mut Vec<Currency>, entries: &[Currency])
    requires { vec_len currencies.old ≡ length entries.now }
    ensures items { currencies.new.items ≡ entries.now }
    ensures len { vec_len currencies.new ≡ vec_len currencies.old }
{
    currencies.as_mut_slice().copy_from_slice(entries);
}

impl Register {
    // The register that a first closed sheet opens, with so many places for portfolios, of which at most 1,024 serve.
    // Without the memory for it the sheet comes back.
    pub fn begin(
        heap: Global,
        closed: ClosedSheet,
        table: &[Currency],
        places: usize,
    ) -> Result<Register, (AllocError, ClosedSheet)>
        requires as_closed { AsClosed closed table.now }
        ensures tables { MatchResult result (λ t. Begins (cash_sheet (closed_entries closed table.now)) (min places 1024) t) (λ x. x.1 ≡ closed) }
        ensures run { IfOk result (λ t. (room : Places) → room.portfolios ≡ min places 1024 → Run (opened_with (cash_sheet (closed_entries closed table.now)) room) t) }
    {
        let entries = &table[0..closed.currencies()];
        match begun(heap, entries, places) {
            Ok((currencies, portfolios)) => {
                closed.discard();
                Ok(Register {
                    currencies,
                    portfolios,
                })
            }
            Err(error) => Err((error, closed)),
        }
    }

    // Puts a later closed sheet in force. One that is refused comes back.
    pub fn put_in_force(
        &mut self,
        closed: ClosedSheet,
        table: &[Currency],
    ) -> Result<(), (RegisterFault, ClosedSheet)>
        requires as_closed { AsClosed closed table.now }
        ensures answer { result ≡ puts self.old closed table.now }
        ensures tables { MatchResult result (λ _. Puts self.old (cash_sheet (closed_entries closed table.now)) self.new) (λ _. Unchanged self.old self.new) }
        ensures run { (h : History) → Reached h self.old → Run (asked h (put_in_force (cash_sheet (closed_entries closed table.now))) (said_put result)) self.new }
    {
        let entries = &table[0..closed.currencies()];
        if let Err(fault) = fit(self.currencies.as_slice(), entries) {
            return Err((fault.into(), closed));
        }
        overwrite(&mut self.currencies, entries);
        closed.discard();
        Ok(())
    }
}
