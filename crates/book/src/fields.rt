// A field by its kind. Its parts are still the book's bytes.
ghost use Rattle.std.specs.Prelude.{◌≡◌, length, Some, MatchOption};
ghost use Rattle.std.specs.Option.{option_map};
ghost use Rattle.book.specs.Ranges.{ranged};
ghost use Rattle.book.specs.Requests.{request, out_of_range, asked, Parts};
ghost use Rattle.book.specs.Tags.{byte_of, payload_length};

use crate::faults::FieldFault;
use crate::numbers::number;
use crate::payments::Payment;
use crate::ranges::{check_currency, check_portfolio};
use crate::tags::Tag;

#[derive(Clone, Copy, Debug, PartialEq, Eq)]
pub struct PaymentBytes<'a> {
    pub portfolio: &'a [u8; 2],
    pub currency: &'a [u8; 2],
    pub amount: &'a [u8; 8],
}

impl<'a> PaymentBytes<'a> {
    fn of(payload: &'a [u8]) -> Option<PaymentBytes<'a>>
        ensures { length payload.now ≡ 12 → MatchOption result ⊥ (λ y. Parts y payload.now) }
    {
        let (portfolio, rest) = payload.split_first_chunk()?;
        let (currency, rest) = rest.split_first_chunk()?;
        Some(PaymentBytes {
            portfolio,
            currency,
            amount: rest.first_chunk()?,
        })
    }
}

#[derive(Clone, Copy, Debug, PartialEq, Eq)]
pub enum Kind<'a> {
    Currency { code: &'a [u8; 2], fx: &'a [u8; 4] },
    PutInForce,
    Open { portfolio: &'a [u8; 2] },
    PayIn(PaymentBytes<'a>),
    PayOut(PaymentBytes<'a>),
    Figures { portfolio: &'a [u8; 2] },
}

impl<'a> Kind<'a> {
    // The kind of a tag, by a payload of its length.
    pub(crate) fn of(tag: Tag, payload: &'a [u8]) -> Option<Kind<'a>>
        ensures { payload_length (byte_of tag) ≡ Some (length payload.now) → option_map asked result ≡ Some (request (byte_of tag) payload.now) }
    {
        Some(match tag {
            Tag::Currency => {
                let (code, rest) = payload.split_first_chunk()?;
                Kind::Currency {
                    code,
                    fx: rest.first_chunk()?,
                }
            }
            Tag::PutInForce => Kind::PutInForce,
            Tag::Open => Kind::Open {
                portfolio: payload.first_chunk()?,
            },
            Tag::PayIn => Kind::PayIn(PaymentBytes::of(payload)?),
            Tag::PayOut => Kind::PayOut(PaymentBytes::of(payload)?),
            Tag::Figures => Kind::Figures {
                portfolio: payload.first_chunk()?,
            },
        })
    }

    // Refuses a number outside its range.
    pub(crate) fn check(self, place: usize) -> Result<(), FieldFault>
        ensures { result ≡ ranged (out_of_range (asked self.entry)) place }
    {
        match self {
            Kind::Currency { code, fx } => check_currency(number(code), number(fx), place),
            Kind::PutInForce => Ok(()),
            Kind::Open { portfolio } | Kind::Figures { portfolio } => {
                check_portfolio(number(portfolio), place)
            }
            Kind::PayIn(payment) | Kind::PayOut(payment) => Payment::from(payment).check(place),
        }
    }
}

#[derive(Clone, Copy, Debug, PartialEq, Eq)]
pub struct Field<'a> {
    pub kind: Kind<'a>,
    pub place: usize,
}
