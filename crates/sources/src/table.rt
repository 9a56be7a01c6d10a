// A table of rates, one row for each code.
ghost use Rattle.std.specs.Prelude.{◌≡◌};
ghost use Rattle.keyed.specs.Tables.{room};

use crate::row::RateRow;
use keyed::Table;
use margin::Piece;
use rates::RateSource;
use sheet::SheetFault;
use std::alloc::{AllocError, Global};

// The clauses have the number itself, so that a reader sees it.
const PLACES: usize = 263;

#[derive(Drop)]
pub struct Rates<R: RateRow> {
    rows: Table<R>,
    ghost places: { room rows ≡ 263 },
}

impl<R: RateRow> RateSource for Rates<R> {
    ghost use Rattle.sources.specs.Rates.{rated};
    ghost use Rattle.sources.specs.Rules.{rated_lawful};

    const MOST: usize = R::MOST;

    ghost MOST = { R.MOST };

    ghost pieces = { rated R.Keyed.key R.pieces };

    ghost lawful = { rated_lawful R.Keyed.key R.pieces R.MOST R.lawful };

    fn count(&self, code: u16) -> usize {
        self.rows.get(code).map_or(0, |_| R::MOST)
    }

    fn piece(&self, code: u16, k: usize) -> Option<Piece> {
        self.rows.get(code)?.piece(k)
    }
}

impl<R: RateRow> Rates<R> {
    ghost use Rattle.std.specs.Prelude.{IfOk, MatchResult};
    ghost use Rattle.sources.specs.Rates.{Cleared, enters_rate, EntersRate};

    // A table with no code, and all the memory that it will ever want.
    pub fn new(heap: Global) -> Result<Rates<R>, AllocError>
        ensures { IfOk result (Cleared R.Keyed.key R.pieces) }
    {
        let places = vec![in heap; R::blank(); PLACES]?;
        Ok(Rates {
            rows: Table::new(places, PLACES),
        })
    }

    // Takes every code out.
    pub fn clear(&mut self)
        ensures { Cleared R.Keyed.key R.pieces self.new }
    {
        self.rows.clear();
    }

    // Takes a code's rate.
    pub fn enter(&mut self, rate: R::Rate) -> Result<(), SheetFault>
        ensures answer { result ≡ enters_rate R.Keyed.key R.pieces self.old (R.says rate) }
        ensures tables { MatchResult result (λ _. EntersRate R.Keyed.key R.pieces self.old (R.says rate) self.new) (λ _. self.new.rows ≡ self.old.rows) }
    {
        let row = R::checked(rate)?;
        self.rows.insert(row)?;
        Ok(())
    }
}
