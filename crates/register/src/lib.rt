// The register of client portfolios under the sheet in force.
#![tactic(auto)]

mod faults;
mod records;
mod state;

pub use faults::{Layer, RegisterCause, RegisterFault};
pub use state::Register;
