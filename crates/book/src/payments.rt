// A payment in numbers.
ghost use Rattle.std.specs.Prelude.{◌≡◌, ◌||◌};
ghost use Rattle.book.specs.Ranges.{no_portfolio, no_currency, no_amount, ranged};
ghost use Rattle.book.specs.Requests.{numbers};

use crate::faults::FieldFault;
use crate::fields::PaymentBytes;
use crate::numbers::number;
use crate::ranges::{LAST_CURRENCY, MOST_AMOUNT, check_portfolio, ranged};

// Its amount is in hundredths.
#[derive(Clone, Copy, Debug, PartialEq, Eq)]
pub struct Payment {
    pub portfolio: u16,
    pub currency: u16,
    pub amount: u64,
}

impl Payment {
    pub fn check(&self, place: usize) -> Result<(), FieldFault>
        ensures { result ≡ ranged (no_portfolio self.now.portfolio || no_currency self.now.currency || no_amount self.now.amount) place }
    {
        check_portfolio(self.portfolio, place)?;
        ranged(
            !(1..=LAST_CURRENCY).contains(&self.currency)
                || !(1..=MOST_AMOUNT).contains(&self.amount),
            place,
        )
    }
}

impl From<PaymentBytes<'_>> for Payment {
    ghost from_gives = { λ bytes payment. payment ≡ numbers bytes };

    fn from(bytes: PaymentBytes<'_>) -> Payment {
        Payment {
            portfolio: number(bytes.portfolio),
            currency: number(bytes.currency),
            amount: number(bytes.amount),
        }
    }
}
