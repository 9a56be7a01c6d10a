// A source that gives every code the same rate.
use margin::Piece;
use rates::RateSource;
use sources::RateRow;

#[derive(Drop)]
pub(crate) struct SameRate<R: RateRow> {
    pub row: R,
}

impl<R: RateRow> RateSource for SameRate<R> {
    ghost use Rattle.measuring.specs.SameRate.{same_pieces, same_lawful};

    const MOST: usize = R::MOST;

    ghost MOST = { R.MOST };

    ghost pieces = { same_pieces R.pieces };

    ghost lawful = { same_lawful R.pieces R.MOST R.lawful };

    fn count(&self, _code: u16) -> usize {
        R::MOST
    }

    fn piece(&self, _code: u16, k: usize) -> Option<Piece> {
        self.row.piece(k)
    }
}
