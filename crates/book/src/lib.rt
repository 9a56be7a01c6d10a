// The bytes of a book: fields of a tag, a length of two bytes and a payload, numbers with the highest byte first.
#![tactic(auto)]

mod faults;
mod fields;
mod numbers;
mod payments;
mod ranges;
mod reader;
mod risk_rates;
mod tags;

pub use faults::{FieldCause, FieldFault};
pub use fields::{Field, Kind, PaymentBytes};
pub use numbers::{Spelled, number};
pub use payments::Payment;
pub use ranges::{check_currency, check_portfolio};
pub use reader::{Item, MOST_BYTES, next_item, read_book};
pub use risk_rates::{PostedRate, SteppedRate};
