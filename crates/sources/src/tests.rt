// Each table filled, read and emptied, with values of its own, and what it promises in its own terms.
ghost use Rattle.std.specs.Prelude.{◌≡◌, length, MatchResult};
ghost use Rattle.sources.specs.Entering.{Enters};
ghost use Rattle.sources.specs.Posted.{posted, posted_count, posted_pieces, enters_posted};
ghost use Rattle.sources.specs.Stepped.{stepped, stepped_count, stepped_pieces, enters_stepped};

use crate::{PostedRates, SteppedRates};
use book::{FieldCause, FieldFault, PostedRate, SteppedRate};
use margin::Piece;
use rates::RateSource;
use sheet::{SheetCause, SheetFault};
use std::test::Fail;

fn enter_posted(rates: &mut PostedRates, rate: PostedRate) -> Result<(), SheetFault>
    ensures answer { result ≡ enters_posted rates.old rate.code rate.plus rate.minus }
    ensures tables { MatchResult result (λ _. Enters (posted rates.old) (posted_count rates.old) rate.code (posted_pieces rate.plus rate.minus) (posted rates.new) (posted_count rates.new)) (λ _. rates.new.rows ≡ rates.old.rows) }
{
    rates.enter(rate)
}

fn enter_stepped(rates: &mut SteppedRates, rate: SteppedRate) -> Result<(), SheetFault>
    ensures answer { result ≡ enters_stepped rates.old rate.code rate.s1 rate.s2 rate.s3 rate.k1 rate.k2 }
    ensures tables { MatchResult result (λ _. Enters (stepped rates.old) (stepped_count rates.old) rate.code (stepped_pieces rate.s1 rate.s2 rate.s3 rate.k1 rate.k2) (stepped rates.new) (stepped_count rates.new)) (λ _. rates.new.rows ≡ rates.old.rows) }
{
    rates.enter(rate)
}

fn count_posted(rates: &PostedRates, code: u16) -> usize
    ensures { result ≡ length (posted rates.now code) }
{
    rates.count(code)
}

fn count_stepped(rates: &SteppedRates, code: u16) -> usize
    ensures { result ≡ length (stepped rates.now code) }
{
    rates.count(code)
}

const OUT_OF_RANGE: SheetFault = SheetFault::Field(FieldFault {
    cause: FieldCause::Range,
    place: 0,
});

const ENTERED: SheetFault = SheetFault::State {
    cause: SheetCause::Entered,
    place: 0,
};

#[test]
fn posted_rates(rt: HostRuntime) -> Result<(), Fail> {
    let mut rates = PostedRates::new(rt.alloc())?;
    let rate = PostedRate {
        code: 840,
        plus: 1_500,
        minus: 2_500,
    };
    assert_eq!(rt; enter_posted(&mut rates, rate), Ok(()));
    assert_eq!(rt; enter_posted(&mut rates, rate), Err(ENTERED));
    let rouble = PostedRate { code: 643, ..rate };
    assert_eq!(rt; enter_posted(&mut rates, rouble), Err(OUT_OF_RANGE));
    let pieces = [(1, 8_500), (2, 12_500)];
    for (k, weight) in pieces {
        let allowance = 0;
        assert_eq!(rt; rates.piece(840, k), Some(Piece { weight, allowance }));
    }
    assert_eq!(rt; rates.piece(840, 0), None);
    assert_eq!(rt; rates.piece(840, 3), None);
    assert_eq!(rt; count_posted(&rates, 840), 2);
    assert_eq!(rt; count_posted(&rates, 978), 0);
    rates.clear();
    assert_eq!(rt; count_posted(&rates, 840), 0);
    assert_eq!(rt; rates.piece(840, 1), None);
    Ok(())
}

#[test]
fn stepped_rates(rt: HostRuntime) -> Result<(), Fail> {
    let mut rates = SteppedRates::new(rt.alloc())?;
    let rate = SteppedRate {
        code: 840,
        s1: 1_000,
        s2: 2_000,
        s3: 4_000,
        k1: 5,
        k2: 7,
    };
    assert_eq!(rt; enter_stepped(&mut rates, rate), Ok(()));
    assert_eq!(rt; enter_stepped(&mut rates, rate), Err(ENTERED));
    let falling = SteppedRate {
        code: 978,
        k1: 8,
        ..rate
    };
    assert_eq!(rt; enter_stepped(&mut rates, falling), Err(OUT_OF_RANGE));
    // a2 = 5 × (2,000 - 1,000), a3 = a2 + 7 × (4,000 - 2,000)
    let pieces = [
        (1, 9_000, 0),
        (2, 8_000, 5_000),
        (3, 6_000, 19_000),
        (4, 11_000, 0),
        (5, 12_000, 5_000),
        (6, 14_000, 19_000),
    ];
    for (k, weight, allowance) in pieces {
        assert_eq!(rt; rates.piece(840, k), Some(Piece { weight, allowance }));
    }
    assert_eq!(rt; rates.piece(840, 0), None);
    assert_eq!(rt; rates.piece(840, 7), None);
    assert_eq!(rt; count_stepped(&rates, 840), 6);
    assert_eq!(rt; count_stepped(&rates, 978), 0);
    rates.clear();
    assert_eq!(rt; count_stepped(&rates, 840), 0);
    assert_eq!(rt; rates.piece(840, 1), None);
    Ok(())
}
