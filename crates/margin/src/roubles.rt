// Amounts in roubles, rounded down.
ghost use Rattle.std.specs.Prelude.{◌≡◌, ◌*◌, ◌^◌, ◌≤◌, pos, ◌*ℤ◌, unsigned_abs};
ghost use Rattle.margin.specs.Numbers.{down};

// The code of the rouble.
pub const ROUBLE: u16 = 643;

// Ten-thousandths as whole numbers, rounded down.
pub fn rounded_down(z: i128) -> i128
    ensures { result ≡ down z 10000 }
{
    z.div_euclid(10_000)
}

// A large amount in roubles, by an exchange rate in ten-thousandths of a rouble, rounded down.
pub fn wide_in_roubles(amount: i128, fx: u32) -> i128
    requires { unsigned_abs amount ≤ 3 * 10 ^ 28 }
    ensures is { result ≡ down (amount *ℤ pos fx) 10000 }
    ensures small { unsigned_abs result ≤ 429_497 * unsigned_abs amount }
{
    rounded_down(amount * i128::from(fx))
}

// An amount in roubles, by an exchange rate in ten-thousandths of a rouble, rounded down.
pub fn in_roubles(amount: i64, fx: u32) -> i128
    ensures is { result ≡ down (amount *ℤ pos fx) 10000 }
    ensures small { unsigned_abs result ≤ 2 ^ 96 }
{
    wide_in_roubles(i128::from(amount), fx)
}
