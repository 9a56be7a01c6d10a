// What a portfolio is worth and how large it is, over whatever source of rates.
#![tactic(auto)]

mod limits;
mod line;
mod lines;
mod listing;
mod market;
mod measure;
mod orders;
mod pieces;
mod portfolio;
mod position;
mod risk;
mod stake;
mod totals;
mod weighed;

pub use line::Line;
pub use lines::Lines;
pub use listing::Listing;
pub use market::Market;
pub use orders::Orders;
pub use portfolio::Portfolio;
pub use risk::{low, shocked, worth};
