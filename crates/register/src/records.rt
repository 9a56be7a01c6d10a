// A portfolio: its number, and its cash by the place of the currency in the sheet. The places are a fixed array: a
// portfolio wants no memory of its own.
ghost use Rattle.std.specs.Prelude.{ℕ, ◌≤◌, pos, slice_index_or, unsigned_abs};

pub(crate) mod cash;
pub(crate) mod keys;

#[derive(Clone, Copy)]
pub struct Portfolio {
    pub(crate) number: u16,
    pub(crate) cash: [i64; 8],
    ghost small: { (i : ℕ) → unsigned_abs (slice_index_or cash i (pos 0)) ≤ 200_000_000_000 },
}
