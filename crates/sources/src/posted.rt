// The posted rates: of each code one rate below and one above.
ghost use Rattle.std.specs.Prelude.{◌≤◌};

use crate::pieces::{heavier, lighter};
use crate::row::RateRow;
use crate::table::Rates;
use book::{FieldFault, PostedRate};
use keyed::Keyed;
use margin::Piece;

pub type PostedRates = Rates<PostedRow>;

// How far below and above 10,000 the two weights of a code lie.
#[derive(Clone, Copy)]
pub struct PostedRow {
    rate: PostedRate,
    ghost low: { rate.plus ≤ 10_000 },
    ghost high: { rate.minus ≤ 10_000 },
}

impl Keyed for PostedRow {
    ghost use Rattle.sources.specs.Keys.{posted_code};

    type Key = u16;

    ghost key = { posted_code };

    fn key(&self) -> u16 {
        self.rate.code
    }
}

impl RateRow for PostedRow {
    ghost use Rattle.sources.specs.Posted.{of_posted, posted_says};
    ghost use Rattle.sources.specs.Rules.{posted_many, posted_row_lawful};

    type Rate = PostedRate;

    const MOST: usize = 2;

    ghost MOST = { 2 };

    ghost pieces = { of_posted };

    ghost rate_of = { λ x. x.rate };

    ghost says = { posted_says };

    ghost many = { posted_many };

    ghost lawful = { posted_row_lawful };

    fn blank() -> PostedRow {
        let rate = PostedRate::default();
        PostedRow { rate }
    }

    fn checked(rate: PostedRate) -> Result<PostedRow, FieldFault> {
        rate.check(0)?;
        Ok(PostedRow { rate })
    }

    // By its place, as a source answers it.
    fn piece(&self, k: usize) -> Option<Piece> {
        match k {
            1 => Some(lighter(self.rate.plus, 0)),
            2 => Some(heavier(self.rate.minus, 0)),
            _ => None,
        }
    }
}
