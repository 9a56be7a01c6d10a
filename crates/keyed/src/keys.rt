// What records are found by.
ghost use Rattle.std.specs.Prelude.{◌≡◌, ℕ, ◌+◌, ◌*◌, ◌^◌};
ghost use Rattle.std.specs.Ordering.{nat_cmp};

use std::cmp::Ordering;

// What a record is found by. Keys compare as their ranks do, which no code computes. No law of `Ord` can say so: in a law a
// number has no range, and pairs go by their ranks only within the ranges of their parts. So each impl proves it of its `cmp`.
pub trait Key: Copy {
    ghost rank: { Self → ℕ };

    fn compare(self, other: Self) -> Ordering
        ensures { result ≡ nat_cmp (rank self) (rank other) };
}

// A record with a key.
pub trait Keyed {
    type Key: Key;

    ghost key: { Self → ℕ };

    fn key(&self) -> Self::Key
        ensures { Self.Key.Key.rank result ≡ key self.now };
}

impl Key for u16 {
    ghost rank = { λ k. k };

    fn compare(self, other: u16) -> Ordering {
        self.cmp(&other)
    }
}

impl Key for u32 {
    ghost rank = { λ k. k };

    fn compare(self, other: u32) -> Ordering {
        self.cmp(&other)
    }
}

// A pair goes by its first part, and by its second where the first parts are the same.
impl Key for (u16, u16) {
    ghost rank = { λ k. k.0 * 2 ^ 16 + k.1 };

    fn compare(self, other: (u16, u16)) -> Ordering {
        self.cmp(&other)
    }
}
