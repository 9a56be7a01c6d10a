// What a source of risk rates answers, whatever holds the rates.
#![tactic(auto)]

mod source;

pub use source::RateSource;
