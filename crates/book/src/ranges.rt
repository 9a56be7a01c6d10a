// The ranges of the numbers that a field or a call brings. A number outside its range is the field's fault 4.
ghost use Rattle.std.specs.Prelude.{◌≡◌, ◌||◌};
ghost use Rattle.book.specs.Ranges.{no_portfolio, no_currency, no_fx, no_rated_code, no_risk_rate, ranged};

use crate::faults::{FieldCause, FieldFault};

pub(crate) const LAST_CURRENCY: u16 = 999;

// In ten-thousandths of a rouble.
const MOST_FX: u32 = 10_000_000;

// In hundredths: another limit than that of gross, of the same value.
pub(crate) const MOST_AMOUNT: u64 = 200_000_000_000;

// As margin has it; neither crate stands on the other.
const ROUBLE: u16 = 643;

const MOST_RISK: u16 = 10_000;

// A fault where a number is outside its range. It takes the test itself: an Option or a Result would hold no more.
pub(crate) fn ranged(outside: bool, place: usize) -> Result<(), FieldFault>
    ensures { result ≡ ranged outside place }
{
    if outside {
        Err(FieldCause::Range.at(place))
    } else {
        Ok(())
    }
}

// No rate is entered for code 0 or for the rouble.
pub(crate) fn not_a_rated_code(code: u16) -> bool
    ensures { result ≡ no_rated_code code }
{
    code == 0 || code == ROUBLE
}

pub(crate) fn not_a_risk_rate(rate: u16) -> bool
    ensures { result ≡ no_risk_rate rate }
{
    rate > MOST_RISK
}

// The numbers of a currency entry: its code and its exchange rate, apart since margin's `Currency` stands above.
pub fn check_currency(code: u16, fx: u32, place: usize) -> Result<(), FieldFault>
    ensures { result ≡ ranged (no_currency code || no_fx fx) place }
{
    ranged(
        !(1..=LAST_CURRENCY).contains(&code) || !(1..=MOST_FX).contains(&fx),
        place,
    )
}

pub fn check_portfolio(portfolio: u16, place: usize) -> Result<(), FieldFault>
    ensures { result ≡ ranged (no_portfolio portfolio) place }
{
    ranged(portfolio == 0, place)
}
