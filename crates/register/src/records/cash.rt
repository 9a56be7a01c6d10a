// How the cash of a portfolio moves.
ghost use Rattle.std.specs.Prelude.{◌≡◌, ◌<◌, ◌≤◌, pos, ◌+ℤ◌, replicate, IfSome, slice_index_or, unsigned_abs};
ghost use Rattle.std.specs.Option.{option_map};
ghost use Rattle.register.specs.Writes.{cash_of, moved_to};

use super::Portfolio;

// The limit of gross, which of cash alone is the cash: another limit than a payment's, of the same value.
const GROSS_LIMIT: u64 = 200_000_000_000;

impl Portfolio {
    // A portfolio with no cash.
    pub(crate) fn empty(number: u16) -> Portfolio
        ensures number { result.number ≡ number }
        ensures cash { result.cash ≡ replicate 8 (pos 0) }
    {
        let cash = [0; 8];
        Portfolio { number, cash }
    }

    // The portfolio with so much more at a place, unless it is over the limit there.
    pub(crate) fn moved(self, place: usize, by: i64) -> Option<Portfolio>
        requires place { place < 8 }
        requires by { unsigned_abs by ≤ 200_000_000_000 }
        ensures cash { option_map cash_of result ≡ moved_to self.cash place (slice_index_or self.cash place (pos 0) +ℤ by) }
        ensures number { IfSome result (λ x. x.number ≡ self.number) }
    {
        let sum = self.cash[place] + by;
        if sum.unsigned_abs() > GROSS_LIMIT {
            return None;
        }
        let number = self.number;
        let mut cash = self.cash;
        cash[place] = sum;
        Some(Portfolio { number, cash })
    }
}
