// What is asked of the register. `answer` says which refusal comes, or what is answered, for every register that can
// exist; `tables` says what it then holds. A refusal leaves it as it was. `run` says: whatever was asked and answered
// before, if that led to the register as it stood, then with this call and its answer it leads to the register as it
// stands, by a lawful run.
ghost use Rattle.std.specs.Prelude.{◌≡◌, pos, neg_ℤ, MatchResult};
ghost use Rattle.rules.specs.Calls as calls;
ghost use Rattle.rules.specs.Histories.{History, asked};
ghost use Rattle.register.specs.State.{Unchanged, Opens, Pays};
ghost use Rattle.register.specs.Answers.{opens, pays_in, pays_out, tells};
ghost use Rattle.register.specs.Runs.{said, said_figures, Reached, Run};

use super::Register;
use crate::faults::RegisterFault;
use book::Payment;
use margin::Figures;

impl Register {
    // Opens a portfolio, with no cash.
    pub fn open_portfolio(&mut self, portfolio: u16) -> Result<(), RegisterFault>
        ensures answer { result ≡ opens self.old portfolio }
        ensures tables { MatchResult result (λ _. Opens self.old portfolio self.new) (λ _. Unchanged self.old self.new) }
        ensures run { (h : History) → Reached h self.old → Run (asked h (calls.open_portfolio portfolio) (said result)) self.new }
    {
        self.check_opening(portfolio)?;
        self.add(portfolio);
        Ok(())
    }

    // Pays cash in.
    pub fn pay_in(&mut self, payment: Payment) -> Result<(), RegisterFault>
        ensures answer { result ≡ pays_in self.old payment.portfolio payment.currency payment.amount }
        ensures tables { MatchResult result (λ _. Pays self.old payment.portfolio payment.currency (pos payment.amount) self.new) (λ _. Unchanged self.old self.new) }
        ensures run { (h : History) → Reached h self.old → Run (asked h (calls.pay_in payment.portfolio payment.currency payment.amount) (said result)) self.new }
    {
        let after = self.paid_in(payment)?;
        self.post(after);
        Ok(())
    }

    // Pays cash out.
    pub fn pay_out(&mut self, payment: Payment) -> Result<(), RegisterFault>
        ensures answer { result ≡ pays_out self.old payment.portfolio payment.currency payment.amount }
        ensures tables { MatchResult result (λ _. Pays self.old payment.portfolio payment.currency (neg_ℤ (pos payment.amount)) self.new) (λ _. Unchanged self.old self.new) }
        ensures run { (h : History) → Reached h self.old → Run (asked h (calls.pay_out payment.portfolio payment.currency payment.amount) (said result)) self.new }
    {
        let after = self.paid_out(payment)?;
        self.post(after);
        Ok(())
    }

    // The six figures of a portfolio.
    pub fn figures(&self, portfolio: u16) -> Result<Figures, RegisterFault>
        ensures answer { result ≡ tells self.now portfolio }
        ensures run { (h : History) → Reached h self.now → Run (asked h (calls.figures portfolio) (said_figures result)) self.now }
    {
        let portfolio = self.opened(portfolio)?;
        Ok(self.figures_of(&portfolio))
    }
}
