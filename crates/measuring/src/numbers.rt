// A number of 128 bits as C takes it, in two halves.
ghost use Rattle.std.specs.Prelude.{◌≡◌, pos, ◌*ℤ◌};
ghost use Rattle.margin.specs.Numbers.{down};
ghost use Rattle.measuring.specs.Numbers.{number, Answers};

// high × 2^64 + low
#[derive(Clone, Copy)]
#[repr(C)]
pub struct Wide {
    pub high: i64,
    pub low: u64,
}

const HALF: i128 = 1 << 64;

impl From<i128> for Wide {
    fn from(z: i128) -> Wide
        ensures { number result ≡ z }
    {
        Wide {
            high: z.div_euclid(HALF) as i64,
            low: z.rem_euclid(HALF) as u64,
        }
    }
}

// A number, and whether what was asked has one: 0 where it has none.
#[derive(Clone, Copy)]
#[repr(C)]
pub struct Answer {
    pub known: bool,
    pub number: Wide,
}

impl From<Option<i128>> for Answer {
    fn from(found: Option<i128>) -> Answer
        ensures { Answers found result }
    {
        Answer {
            known: found.is_some(),
            number: Wide::from(found.unwrap_or(0)),
        }
    }
}

// An amount in roubles at an exchange rate in ten-thousandths, rounded down.
#[unsafe(no_mangle)]
pub extern "C" fn roubles(amount: i64, fx: u32) -> Wide
    ensures { number result ≡ down (amount *ℤ pos fx) 10000 }
{
    Wide::from(margin::in_roubles(amount, fx))
}
