ghost use Rattle.std.specs.Prelude.{◌≡◌, ◌<◌, ◌≤◌, min, length, vec_len, nat_le, slice_index_or, slice_set};
ghost use Rattle.std.specs.List.{insert, remove};
ghost use Rattle.keyed.specs.Places.{records, serving, Vacant, Appends};

use super::Places;
use crate::slices::{add, remove};
use crate::table::Refusal;
use std::mem::replace;

impl<R: Copy> Places<R> {
    // Places with no record. Of them at most `most` serve.
    pub fn new(places: Vec<R>, most: usize) -> Places<R>
        ensures { Vacant result (min most (vec_len places)) }
    {
        let limit = most.min(places.len());
        Places {
            places,
            limit,
            used: 0,
        }
    }

    // The records, from the first place on.
    pub fn rows(&self) -> &[R]
        ensures { result.now ≡ records self.now }
    {
        &self.places[0..self.used]
    }

    // How many records there are.
    pub fn len(&self) -> usize
        ensures { result ≡ length (records self.now) }
    {
        self.rows().len()
    }

    // Whether each place that serves holds a record.
    pub fn is_full(&self) -> bool
        ensures { result ≡ nat_le (serving self.now) (length (records self.now)) }
    {
        self.limit <= self.len()
    }

    // The record at a place. Each method asks of its own place that a record stands there: a type of such places would hold of
    // one table at one moment.
    pub fn row(&self, at: usize) -> R
        requires { at < length (records self.now) }
        ensures { result ≡ slice_index_or (records self.now) at result }
    {
        self.rows()[at]
    }

    // Puts a record after all others, whatever its key, where there is a free place. Of the refusals only `Full` comes: a type
    // for it alone would be one more name for callers.
    pub fn append(&mut self, row: R) -> Result<(), Refusal>
        ensures { Appends self.old self.new row result }
    {
        if self.is_full() {
            return Err(Refusal::Full);
        }
        self.places[self.used] = row;
        self.used += 1;
        Ok(())
    }

    // Puts the records in the place of all that there are.
    pub fn load(&mut self, rows: &[R])
        requires { length rows.now ≤ serving self.old }
        ensures records { records self.new ≡ rows.now }
        ensures serving { serving self.new ≡ serving self.old }
    {
        self.places[0..rows.len()].copy_from_slice(rows);
        self.used = rows.len();
    }

    // Takes every record out.
    pub fn clear(&mut self)
        ensures { Vacant self.new (serving self.old) }
    {
        self.used = 0;
    }

    // Puts a record in at a place, and the records from there on one place up.
    pub(crate) fn put_in(&mut self, at: usize, row: R)
        requires free { length (records self.old) < serving self.old }
        requires place { at ≤ length (records self.old) }
        ensures records { records self.new ≡ insert (records self.old) at row }
        ensures serving { serving self.new ≡ serving self.old }
    {
        add(self.places.as_mut_slice(), self.used, at, row);
        self.used += 1;
    }

    // Puts a record in the place of another, and gives that one back.
    pub(crate) fn write(&mut self, at: usize, row: R) -> R
        requires { at < length (records self.old) }
        ensures was { result ≡ slice_index_or (records self.old) at result }
        ensures records { records self.new ≡ slice_set (records self.old) at row }
        ensures serving { serving self.new ≡ serving self.old }
    {
        replace(&mut self.places[at], row)
    }

    // Takes the record at a place out, and moves those above it one place down.
    pub(crate) fn take_out(&mut self, at: usize) -> R
        requires { at < length (records self.old) }
        ensures was { result ≡ slice_index_or (records self.old) at result }
        ensures records { records self.new ≡ remove (records self.old) at }
        ensures serving { serving self.new ≡ serving self.old }
    {
        let row = self.row(at);
        remove(self.places.as_mut_slice(), self.used, at);
        self.used -= 1;
        row
    }
}
