// What the desk answers to each field. A call before a sheet is in force meets 27. Each call has a short method of its own.
ghost use Rattle.std.specs.Prelude.{◌≡◌, IfOk, Some, None, Ok};
ghost use Rattle.rules.specs.Histories.{opened_with};
ghost use Rattle.book.specs.Requests.{enter_currency, put_in_force, open_portfolio, pay_in, pay_out, figures, asked};
ghost use Rattle.book.specs.Book.{seen};
ghost use Rattle.sheet.specs.Drafts.{AsClosed};
ghost use Rattle.desk.specs.Service.{answer, Opened, Leaves, Carries, Lawful, room, sheet_of, Serves, Begun};

use super::Desk;
use crate::drafting::Drafting;
use crate::replies::{Answer, Outcome};
use book::{Item, Kind, Payment, number};
use margin::Currency;
use register::{Register, RegisterFault};
use sheet::{ClosedSheet, SheetCause, SheetFault};
use std::alloc::{AllocError, Global};

// How many places for portfolios a desk's register has.
const PLACES: usize = 64;

const NOT_IN_FORCE: RegisterFault = RegisterFault::Sheet(SheetFault::State {
    cause: SheetCause::NotInForce,
    place: 0,
});

impl Desk {
    // An empty draft, and no sheet in force.
    pub(crate) fn begin() -> Desk
        ensures { Begun result }
    {
        Desk {
            drafting: Drafting::begin(),
            register: None,
        }
    }

    pub(crate) fn discard(self) {
        let Desk {
            drafting,
            register: _,
        } = self;
        drafting.discard();
    }

    fn open_portfolio(&mut self, portfolio: u16) -> Answer
        ensures is { result ≡ answer self.old (open_portfolio portfolio) }
        ensures leaves { Leaves self.old (open_portfolio portfolio) self.new }
        ensures carries { Carries self.old (open_portfolio portfolio) self.new }
    {
        let register = self.register.as_mut().ok_or(NOT_IN_FORCE)?;
        register.open_portfolio(portfolio)?;
        Ok(None)
    }

    fn pay_in(&mut self, payment: Payment) -> Answer
        ensures is { result ≡ answer self.old (pay_in payment.portfolio payment.currency payment.amount) }
        ensures leaves { Leaves self.old (pay_in payment.portfolio payment.currency payment.amount) self.new }
        ensures carries { Carries self.old (pay_in payment.portfolio payment.currency payment.amount) self.new }
    {
        let register = self.register.as_mut().ok_or(NOT_IN_FORCE)?;
        register.pay_in(payment)?;
        Ok(None)
    }

    fn pay_out(&mut self, payment: Payment) -> Answer
        ensures is { result ≡ answer self.old (pay_out payment.portfolio payment.currency payment.amount) }
        ensures leaves { Leaves self.old (pay_out payment.portfolio payment.currency payment.amount) self.new }
        ensures carries { Carries self.old (pay_out payment.portfolio payment.currency payment.amount) self.new }
    {
        let register = self.register.as_mut().ok_or(NOT_IN_FORCE)?;
        register.pay_out(payment)?;
        Ok(None)
    }

    fn figures(&self, portfolio: u16) -> Answer
        ensures is { result ≡ answer self.now (figures portfolio) }
        ensures carries { Carries self.now (figures portfolio) self.now }
    {
        let register = self.register.as_ref().ok_or(NOT_IN_FORCE)?;
        let figures = register.figures(portfolio)?;
        Ok(Some(figures))
    }

    // Opens the register by a closed sheet.
    fn open_register(&mut self, heap: Global, closed: ClosedSheet) -> Result<Answer, AllocError>
        requires { AsClosed closed self.old.drafting.table }
        ensures { IfOk result (λ a. (a ≡ Ok None) × Opened self.old closed self.new × Lawful self.new.register (Some (opened_with (sheet_of closed self.old.drafting.table) room))) }
    {
        match Register::begin(heap, closed, &self.drafting.table, PLACES) {
            Ok(register) => {
                self.register = Some(register);
                Ok(Ok(None))
            }
            Err((error, closed)) => {
                closed.discard();
                Err(error)
            }
        }
    }

    // Closes the draft, and opens the register by the closed sheet or puts it in force. What is refused is discarded, and an
    // empty draft begins.
    fn put_in_force(&mut self, heap: Global) -> Result<Answer, AllocError>
        ensures { IfOk result (λ a. (a ≡ answer self.old put_in_force) × Leaves self.old put_in_force self.new × Carries self.old put_in_force self.new) }
    {
        let draft = self.drafting.take();
        let closed = match draft.close(&self.drafting.table) {
            Ok(closed) => closed,
            Err((fault, draft)) => {
                draft.discard();
                return Ok(Err(fault.into()));
            }
        };
        let Some(register) = &mut self.register else {
            return self.open_register(heap, closed);
        };
        match register.put_in_force(closed, &self.drafting.table) {
            Ok(()) => Ok(Ok(None)),
            Err((fault, closed)) => {
                closed.discard();
                Ok(Err(fault))
            }
        }
    }

    fn enter_currency(&mut self, currency: Currency) -> Answer
        ensures is { result ≡ answer self.old (enter_currency currency.code currency.fx) }
        ensures leaves { Leaves self.old (enter_currency currency.code currency.fx) self.new }
        ensures carries { Carries self.old (enter_currency currency.code currency.fx) self.new }
    {
        self.drafting.enter_currency(currency)?;
        Ok(None)
    }

    // What a field of its kind asks, asked.
    fn ask(&mut self, heap: Global, kind: &Kind) -> Result<Answer, AllocError>
        ensures { IfOk result (λ a. (a ≡ answer self.old (asked kind.now)) × Leaves self.old (asked kind.now) self.new × Carries self.old (asked kind.now) self.new) }
    {
        match *kind {
            Kind::Currency { code, fx } => Ok(self.enter_currency(Currency {
                code: number(code),
                fx: number(fx),
            })),
            Kind::PutInForce => self.put_in_force(heap),
            Kind::Open { portfolio } => Ok(self.open_portfolio(number(portfolio))),
            Kind::PayIn(payment) => Ok(self.pay_in(Payment::from(payment))),
            Kind::PayOut(payment) => Ok(self.pay_out(Payment::from(payment))),
            Kind::Figures { portfolio } => Ok(self.figures(number(portfolio))),
        }
    }

    // The outcome of a field. A refusal has the field's place.
    pub(crate) fn serve(&mut self, heap: Global, item: &Item) -> Result<Outcome, AllocError>
        ensures { IfOk result (λ o. Serves self.old (seen item.now) o self.new) }
    {
        let tag = item.tag;
        let field = match item.field {
            Ok(field) => field,
            Err(fault) => {
                let answer = Err(fault.into());
                return Ok(Outcome { tag, answer });
            }
        };
        let answer = self
            .ask(heap, &field.kind)?
            .map_err(|fault| fault.at(field.place));
        Ok(Outcome { tag, answer })
    }
}
