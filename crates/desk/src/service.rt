// The desk: a draft of the next sheet, and the register once a sheet is in force.
use crate::drafting::Drafting;
use register::Register;

pub(crate) mod answers;
pub(crate) mod runs;

pub struct Desk {
    pub(crate) drafting: Drafting,
    pub(crate) register: Option<Register>,
}
