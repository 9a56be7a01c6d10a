// The six figures made of three, and as text.
ghost use Rattle.std.specs.Prelude.{◌≡◌, ◌^◌, ◌≤◌, unsigned_abs, Some};
ghost use Rattle.margin.specs.Numbers.{half_up};
ghost use Rattle.margin.specs.Cash.{figures_from};
ghost use Rattle.margin.specs.Texts.{six_numbers};

use crate::Figures;
use std::fmt;

// Half, rounded up.
fn half_up(z: i128) -> i128
    requires { unsigned_abs z ≤ 2 ^ 121 }
    ensures is { result ≡ half_up z }
    ensures small { unsigned_abs result ≤ 2 ^ 121 }
{
    (z + 1).div_euclid(2)
}

// The six figures from the value, the first ratio and the worst case.
pub fn figures_from(value: i128, first: i128, worst: i128) -> Figures
    requires value { unsigned_abs value ≤ 2 ^ 120 }
    requires first { unsigned_abs first ≤ 2 ^ 120 }
    ensures { result ≡ figures_from value first worst }
{
    let initial = value - first;
    let minimum = half_up(initial);
    Figures {
        value,
        initial,
        minimum,
        first,
        second: value - minimum,
        worst,
    }
}

// The six numbers, a space between each two.
impl fmt::Display for Figures {
    ghost output = { λ s. Some (six_numbers s) };

    fn fmt<W: fmt::Write>(&self, f: &mut fmt::Formatter<W>) -> fmt::Result {
        let Figures {
            value,
            initial,
            minimum,
            first,
            second,
            worst,
        } = *self;
        write!(f, "{value} {initial} {minimum} {first} {second} {worst}")
    }
}
