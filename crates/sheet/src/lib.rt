// A sheet of rates: a draft takes currencies until it is closed, and only a closed sheet can be put in force.
#![tactic(auto)]

mod drafts;
mod faults;

pub use drafts::{ClosedSheet, Draft};
pub use faults::{SheetCause, SheetFault};
