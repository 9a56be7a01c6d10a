// How the register is read and written, and how cash is judged.
ghost use Rattle.std.specs.Prelude.{◌≡◌, true, Ok, MatchOption};
ghost use Rattle.keyed.specs.Rows.{Stands};
ghost use Rattle.margin.specs.Keys.{currency_code};
ghost use Rattle.margin.specs.Cash.{cash_by, cash_holding};
ghost use Rattle.margin.specs.Figures.{figures_of};
ghost use Rattle.margin.specs.Limits.{worsens};
ghost use Rattle.register.specs.State.{currencies, in_force, is_open, Opens};
ghost use Rattle.register.specs.Answers.{missing, opens};
ghost use Rattle.register.specs.Writes.{Writes};

use super::Register;
use crate::records::Portfolio;
use keyed::find;
use margin::{Figures, cash_figures};

impl Register {
    // Where a currency stands in the sheet.
    pub(crate) fn place_of(&self, code: u16) -> Option<usize>
        ensures { MatchOption result (missing self.now code ≡ true) (λ i. Stands currency_code (currencies self.now) code i) }
    {
        find(&self.currencies, code).ok()
    }

    // The figures of a portfolio.
    pub(crate) fn figures_of(&self, portfolio: &Portfolio) -> Figures
        ensures { result ≡ figures_of (in_force self.now) (cash_holding (cash_by (currencies self.now) portfolio.now.cash)) }
    {
        cash_figures(&self.currencies, &portfolio.cash)
    }

    // Whether the worst case would be below nought, and below what it is.
    pub(crate) fn is_worse(&self, before: &Portfolio, after: &Portfolio) -> bool
        ensures { result ≡ worsens (in_force self.now) (cash_holding (cash_by (currencies self.now) before.now.cash)) (cash_holding (cash_by (currencies self.now) after.now.cash)) }
    {
        let worst = self.figures_of(after).worst;
        worst < 0 && worst < self.figures_of(before).worst
    }

    // Puts a portfolio that may be opened in, with no cash.
    pub(crate) fn add(&mut self, number: u16)
        requires { opens self.old number ≡ Ok tt }
        ensures { Opens self.old number self.new }
    {
        let _ = self.portfolios.insert(Portfolio::empty(number));
    }

    // Puts an open portfolio in the place of what it was.
    pub(crate) fn post(&mut self, after: Portfolio)
        requires { is_open self.old after.number ≡ true }
        ensures { Writes self.old after.number after.cash self.new }
    {
        let _ = self.portfolios.replace(after);
    }
}
