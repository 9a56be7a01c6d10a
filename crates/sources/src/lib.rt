// Two sources of rates: the posted table and the stepped table. Each takes up to 263 codes.
#![tactic(auto)]

mod pieces;
mod posted;
mod row;
mod stepped;
mod table;

pub use posted::{PostedRates, PostedRow};
pub use row::RateRow;
pub use stepped::{SteppedRates, SteppedRow};
pub use table::Rates;

#[cfg(test)]
mod tests;
