// The checks of each call in their order, one `let .. else` a refusal: the first that fails gives it. Where none does, they
// give what the call then writes or tells. Two payments stay written out, so that each call's order is read in one place.
ghost use Rattle.std.specs.Prelude.{◌≡◌, pos, neg_ℤ, Some, Ok, Err, IfOk, MatchResult};
ghost use Rattle.margin.specs.Figures.{figures_of};
ghost use Rattle.register.specs.State.{in_force, portfolio, holding};
ghost use Rattle.register.specs.Answers.{opens, pays_in, pays_out, tells, without_value};
ghost use Rattle.register.specs.Writes.{Paid};

use super::Register;
use crate::faults::{RegisterCause, RegisterFault};
use crate::records::Portfolio;
use book::{Payment, check_portfolio};

impl Register {
    // Whether a portfolio may be opened.
    pub(crate) fn check_opening(&self, portfolio: u16) -> Result<(), RegisterFault>
        ensures { result ≡ opens self.now portfolio }
    {
        check_portfolio(portfolio, 0)?;
        let None = self.portfolios.get(portfolio) else {
            return Err(RegisterCause::PortfolioExists.into());
        };
        let false = self.portfolios.is_full() else {
            return Err(RegisterCause::NoPlace.into());
        };
        Ok(())
    }

    // A portfolio with cash paid in.
    pub(crate) fn paid_in(&self, payment: Payment) -> Result<Portfolio, RegisterFault>
        ensures answer { without_value result ≡ pays_in self.now payment.portfolio payment.currency payment.amount }
        ensures after { IfOk result (Paid self.now payment.portfolio payment.currency (pos payment.amount)) }
    {
        payment.check(0)?;
        let Some(before) = self.portfolios.get(payment.portfolio) else {
            return Err(RegisterCause::NoPortfolio.into());
        };
        let Some(place) = self.place_of(payment.currency) else {
            return Err(RegisterCause::CodeMissing.into());
        };
        let Some(after) = before.moved(place, payment.amount as i64) else {
            return Err(RegisterCause::Gross.into());
        };
        Ok(after)
    }

    // A portfolio with cash paid out.
    pub(crate) fn paid_out(&self, payment: Payment) -> Result<Portfolio, RegisterFault>
        ensures answer { without_value result ≡ pays_out self.now payment.portfolio payment.currency payment.amount }
        ensures after { IfOk result (Paid self.now payment.portfolio payment.currency (neg_ℤ (pos payment.amount))) }
    {
        payment.check(0)?;
        let Some(before) = self.portfolios.get(payment.portfolio) else {
            return Err(RegisterCause::NoPortfolio.into());
        };
        let Some(place) = self.place_of(payment.currency) else {
            return Err(RegisterCause::CodeMissing.into());
        };
        let Some(after) = before.moved(place, -(payment.amount as i64)) else {
            return Err(RegisterCause::Gross.into());
        };
        let false = self.is_worse(&before, &after) else {
            return Err(RegisterCause::WorstCase.into());
        };
        Ok(after)
    }

    // An open portfolio.
    pub(crate) fn opened(&self, number: u16) -> Result<Portfolio, RegisterFault>
        ensures { MatchResult result (λ x. (portfolio self.now number ≡ Some x) × (tells self.now number ≡ Ok (figures_of (in_force self.now) (holding self.now number)))) (λ f. tells self.now number ≡ Err f) }
    {
        check_portfolio(number, 0)?;
        let Some(portfolio) = self.portfolios.get(number) else {
            return Err(RegisterCause::NoPortfolio.into());
        };
        Ok(portfolio)
    }
}
