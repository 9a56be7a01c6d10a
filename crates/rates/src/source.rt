ghost use Rattle.std.specs.Prelude.{◌≡◌, ℕ, ◌<◌, List, length};
ghost use Rattle.margin.specs.declared.Piece as margin;
ghost use Rattle.rates.specs.Pieces.{Lawful, from_one};

use margin::Piece;

// A source means a fixed list of pieces for each code that it knows. It hands out a count and one piece at a time, by its
// place from 1, so that it needs no memory to answer.
pub trait RateSource {
    // How many pieces a code may have.
    const MOST: usize;

    ghost MOST: { ℕ };

    // The pieces of a code, none where it is not known.
    ghost pieces: { Self → ℕ → List margin.Piece };

    // How many pieces a code has, 0 where it is not known.
    fn count(&self, code: u16) -> usize
        ensures { result ≡ length (pieces self.now code) };

    // The piece at a place from 1, where there is one.
    fn piece(&self, code: u16, k: usize) -> Option<Piece>
        ensures { result ≡ from_one (pieces self.now code) k };

    // The pieces of a code that is known keep the rules, and are at most `MOST`.
    ghost lawful: { (s : Self) (code : ℕ) → 0 < length (pieces s code) → Lawful MOST (pieces s code) };
}
