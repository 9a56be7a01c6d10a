// The stepped rates: of each code three rates, and what the higher ones allow.
ghost use Rattle.std.specs.Prelude.{◌^◌, ◌<◌, ◌≤◌};

use crate::pieces::{heavier, lighter};
use crate::row::RateRow;
use crate::table::Rates;
use book::{FieldFault, SteppedRate};
use keyed::Keyed;
use margin::Piece;

pub type SteppedRates = Rates<SteppedRow>;

// The rates of three steps, and the limits at which the second and the third begin.
#[derive(Clone, Copy)]
pub struct SteppedRow {
    rate: SteppedRate,
    ghost rises: { rate.s1 ≤ rate.s2 },
    ghost again: { rate.s2 ≤ rate.s3 },
    ghost whole: { rate.s3 ≤ 10_000 },
    ghost limits: { rate.k1 ≤ rate.k2 },
    ghost bounded: { rate.k2 < 2 ^ 32 },
}

impl SteppedRow {
    ghost use Rattle.std.specs.Prelude.{◌≡◌};
    ghost use Rattle.sources.specs.Stepped.{second, third};

    // The allowance of the second step.
    fn second(&self) -> u64
        ensures { result ≡ second self.now.rate.s1 self.now.rate.s2 self.now.rate.k1 }
    {
        u64::from(self.rate.k1) * u64::from(self.rate.s2 - self.rate.s1)
    }

    // The allowance of the third step.
    fn third(&self) -> u64
        ensures { result ≡ third self.now.rate.s1 self.now.rate.s2 self.now.rate.s3 self.now.rate.k1 self.now.rate.k2 }
    {
        self.second() + u64::from(self.rate.k2) * u64::from(self.rate.s3 - self.rate.s2)
    }
}

impl Keyed for SteppedRow {
    ghost use Rattle.sources.specs.Keys.{stepped_code};

    type Key = u16;

    ghost key = { stepped_code };

    fn key(&self) -> u16 {
        self.rate.code
    }
}

impl RateRow for SteppedRow {
    ghost use Rattle.sources.specs.Stepped.{of_stepped, stepped_says};
    ghost use Rattle.sources.specs.Rules.{stepped_many, stepped_row_lawful};

    type Rate = SteppedRate;

    const MOST: usize = 6;

    ghost MOST = { 6 };

    ghost pieces = { of_stepped };

    ghost rate_of = { λ x. x.rate };

    ghost says = { stepped_says };

    ghost many = { stepped_many };

    ghost lawful = { stepped_row_lawful };

    fn blank() -> SteppedRow {
        let rate = SteppedRate::default();
        SteppedRow { rate }
    }

    fn checked(rate: SteppedRate) -> Result<SteppedRow, FieldFault> {
        rate.check(0)?;
        Ok(SteppedRow { rate })
    }

    // By its place, as a source answers it.
    fn piece(&self, k: usize) -> Option<Piece> {
        match k {
            1 => Some(lighter(self.rate.s1, 0)),
            2 => Some(lighter(self.rate.s2, self.second())),
            3 => Some(lighter(self.rate.s3, self.third())),
            4 => Some(heavier(self.rate.s1, 0)),
            5 => Some(heavier(self.rate.s2, self.second())),
            6 => Some(heavier(self.rate.s3, self.third())),
            _ => None,
        }
    }
}
