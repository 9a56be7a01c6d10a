// A portfolio's line in a code: how many units it has or owes.
ghost use Rattle.std.specs.Prelude.{◌≤◌, unsigned_abs};

#[derive(Clone, Copy)]
pub struct Line {
    pub code: u16,
    pub planned: i64,
    ghost small: { unsigned_abs planned ≤ 200_000_000_000 },
}
