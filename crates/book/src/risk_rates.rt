// The numbers that a risk rate is entered by; rates are in ten-thousandths.
ghost use Rattle.std.specs.Prelude.{◌≡◌, ◌||◌};
ghost use Rattle.book.specs.Ranges.{no_rated_code, no_risk_rate, no_steps, no_limits, ranged};

use crate::faults::FieldFault;
use crate::ranges::{not_a_rated_code, not_a_risk_rate, ranged};

// The weights lie `plus` below and `minus` above 10,000.
#[derive(Clone, Copy, Debug, Default, PartialEq, Eq)]
pub struct PostedRate {
    pub code: u16,
    pub plus: u16,
    pub minus: u16,
}

impl PostedRate {
    pub fn check(&self, place: usize) -> Result<(), FieldFault>
        ensures { result ≡ ranged (no_rated_code self.now.code || no_risk_rate self.now.plus || no_risk_rate self.now.minus) place }
    {
        ranged(
            not_a_rated_code(self.code)
                || not_a_risk_rate(self.plus)
                || not_a_risk_rate(self.minus),
            place,
        )
    }
}

// Three steps, and the limits between them.
#[derive(Clone, Copy, Debug, Default, PartialEq, Eq)]
pub struct SteppedRate {
    pub code: u16,
    pub s1: u16,
    pub s2: u16,
    pub s3: u16,
    pub k1: u32,
    pub k2: u32,
}

impl SteppedRate {
    pub fn check(&self, place: usize) -> Result<(), FieldFault>
        ensures { result ≡ ranged (no_rated_code self.now.code || no_steps self.now.s1 self.now.s2 self.now.s3 || no_limits self.now.k1 self.now.k2) place }
    {
        ranged(
            not_a_rated_code(self.code)
                || self.s1 > self.s2
                || self.s2 > self.s3
                || not_a_risk_rate(self.s3)
                || self.k1 > self.k2,
            place,
        )
    }
}
