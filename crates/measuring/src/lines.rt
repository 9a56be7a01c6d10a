// The worth and the low of one line, under posted and under stepped rates.
ghost use Rattle.std.specs.Prelude.{◌≡◌};
ghost use Rattle.sources.specs.Posted.{posted_says};
ghost use Rattle.sources.specs.Stepped.{stepped_says};
ghost use Rattle.measuring.specs.Numbers.{Answers};
ghost use Rattle.measuring.specs.Lines.{worth_under, low_under, posted_rate, stepped_rate};

use crate::numbers::Answer;
use crate::requests::{Request, four};
use crate::same_rate::SameRate;
use crate::units::Units;
use book::{PostedRate, SteppedRate};
use sources::{PostedRow, RateRow, SteppedRow};
use valuation::{Orders, low, worth};

fn worth_of<R: RateRow>(rate: R::Rate, code: u16, units: Units) -> Option<i128>
    ensures { result ≡ worth_under (R.says rate) code units }
{
    let row = R::checked(rate).ok()?;
    let line = units.line(code)?;
    Some(worth(&SameRate { row }, units.instrument(code), line))
}

fn low_of<R: RateRow>(rate: R::Rate, code: u16, units: Units, requests: &[Request]) -> Option<i128>
    ensures { result ≡ low_under (R.says rate) code units requests.now }
{
    let row = R::checked(rate).ok()?;
    let line = units.line(code)?;
    let orders = four(requests)?;
    let orders = Orders { orders: &orders };
    Some(low(&SameRate { row }, units.instrument(code), line, &orders))
}

// The worth of a line whose code has a posted rate. It is not known where a number is out of its range.
#[unsafe(no_mangle)]
pub extern "C" fn worth_posted(code: u16, plus: u16, minus: u16, units: Units) -> Answer
    ensures { Answers (worth_under (posted_says (posted_rate code plus minus)) code units) result }
{
    Answer::from(worth_of::<PostedRow>(PostedRate { code, plus, minus }, code, units))
}

// The same at a stepped rate.
#[unsafe(no_mangle)]
pub extern "C" fn worth_stepped(
    code: u16,
    s1: u16,
    s2: u16,
    s3: u16,
    k1: u32,
    k2: u32,
    units: Units,
) -> Answer
    ensures { Answers (worth_under (stepped_says (stepped_rate code s1 s2 s3 k1 k2)) code units) result }
{
    let rate = SteppedRate {
        code,
        s1,
        s2,
        s3,
        k1,
        k2,
    };
    Answer::from(worth_of::<SteppedRow>(rate, code, units))
}

// The least that a line can come to, with the cash of its orders, whose code has a posted rate. It is not known where a
// number is out of its range, or where the orders are not four.
#[unsafe(no_mangle)]
pub extern "C" fn low_posted(
    code: u16,
    plus: u16,
    minus: u16,
    units: Units,
    requests: &[Request],
) -> Answer
    ensures { Answers (low_under (posted_says (posted_rate code plus minus)) code units requests.now) result }
{
    let rate = PostedRate { code, plus, minus };
    Answer::from(low_of::<PostedRow>(rate, code, units, requests))
}

// The same at a stepped rate.
#[unsafe(no_mangle)]
pub extern "C" fn low_stepped(
    code: u16,
    s1: u16,
    s2: u16,
    s3: u16,
    k1: u32,
    k2: u32,
    units: Units,
    requests: &[Request],
) -> Answer
    ensures { Answers (low_under (stepped_says (stepped_rate code s1 s2 s3 k1 k2)) code units requests.now) result }
{
    let rate = SteppedRate {
        code,
        s1,
        s2,
        s3,
        k1,
        k2,
    };
    Answer::from(low_of::<SteppedRow>(rate, code, units, requests))
}
