// The row of a table of rates.
ghost use Rattle.std.specs.Prelude.{◌≡◌, ℕ, List, length, IfOk};
ghost use Rattle.margin.specs.declared.Piece as margin;
ghost use Rattle.rates.specs.Pieces.{Lawful, from_one};
ghost use Rattle.sources.specs.Entering.{Said, Checked};

use book::FieldFault;
use keyed::Keyed;
use margin::Piece;

// The rate of a code, with its numbers in their ranges.
pub trait RateRow: Keyed<Key = u16> + Copy {
    // The numbers that a rate is entered by.
    type Rate;

    // How many pieces a rate has.
    const MOST: usize;

    ghost MOST: { ℕ };

    // The pieces of a rate.
    ghost pieces: { Self → List margin.Piece };

    // The numbers of a row.
    ghost rate_of: { Self → Self.Rate };

    // What the numbers say, and whether one is outside its range.
    ghost says: { Self.Rate → Said };

    // What stands in a free place. No rate is entered for code 0. No `Default`, which would promise no key.
    fn blank() -> Self
        ensures { Self.Keyed.key result ≡ 0 };

    // The row of a rate whose numbers are in their ranges. No TryFrom, since a trait's bound cannot name the trait's own type.
    fn checked(rate: Self::Rate) -> Result<Self, FieldFault>
        ensures row { Checked Self.Keyed.key pieces (says rate) result }
        ensures rate { IfOk result (λ x. rate_of x ≡ rate) };

    // The piece at a place from 1, where there is one, as a source answers it.
    fn piece(&self, k: usize) -> Option<Piece>
        ensures { result ≡ from_one (pieces self.now) k };

    // The pieces are `MOST`, and keep the rules.
    ghost many: { (x : Self) → length (pieces x) ≡ MOST };

    ghost lawful: { (x : Self) → Lawful MOST (pieces x) };
}
