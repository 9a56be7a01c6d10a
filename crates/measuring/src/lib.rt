// Figures of one line and of a portfolio, for a program in Rust or C to compare and to time. Each function takes every
// number that C can pass.
#![tactic(auto)]

mod lines;
mod numbers;
mod placed;
mod portfolio;
mod requests;
mod same_rate;
mod units;

pub use lines::{low_posted, low_stepped, worth_posted, worth_stepped};
pub use numbers::{Answer, Wide, roubles};
pub use portfolio::{Cash, Told, figures_posted};
pub use requests::Request;
pub use units::Units;
