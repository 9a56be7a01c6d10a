// Records found by their keys: on slices, on places, and in tables whose keys rise.
#![tactic(auto)]

mod keys;
pub mod laws;
mod places;
mod slices;
mod table;

pub use keys::{Key, Keyed};
pub use places::Places;
pub use slices::{add, find, range, remove};
pub use table::{Refusal, Table};
