// So many units of a code: `amount` is the price times the quantity.
ghost use Rattle.std.specs.Prelude.{◌^◌, ◌≤◌, unsigned_abs};

#[derive(Clone, Copy)]
pub(crate) struct Stake {
    pub code: u16,
    pub price: u32,
    pub amount: i128,
    ghost small: { unsigned_abs amount ≤ 10 ^ 29 },
}
