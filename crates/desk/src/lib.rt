// A book against a register: each field is a call, each call has an answer.
#![tactic(auto)]

mod drafting;
mod replies;
mod service;

pub use replies::{Answer, Outcome};
pub use service::runs::run;
