// The two pieces of a rate: below and above a weight of 10,000.
ghost use Rattle.std.specs.Prelude.{◌≡◌, ◌≤◌};
ghost use Rattle.sources.specs.Pieces.{lighter, heavier};

use margin::Piece;

pub(crate) fn lighter(rate: u16, allowance: u64) -> Piece
    requires { rate ≤ 10_000 }
    ensures { result ≡ lighter rate allowance }
{
    Piece {
        weight: 10_000 - u32::from(rate),
        allowance,
    }
}

pub(crate) fn heavier(rate: u16, allowance: u64) -> Piece
    ensures { result ≡ heavier rate allowance }
{
    Piece {
        weight: 10_000 + u32::from(rate),
        allowance,
    }
}
