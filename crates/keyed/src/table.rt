// A table of records whose keys rise.
ghost use Rattle.keyed.specs.Places.{records};
ghost use Rattle.keyed.specs.Rows.{Rising};

use crate::keys::Keyed;
use crate::places::Places;

pub(crate) mod methods;

#[derive(Drop)]
pub struct Table<R: Keyed> {
    pub(crate) rows: Places<R>,
    pub ghost rising: { Rising R.Keyed.key (records rows) },
}

// Why a table did not take a record.
#[derive(Clone, Copy, PartialEq, Eq, Debug)]
pub enum Refusal {
    Taken,
    Full,
}
