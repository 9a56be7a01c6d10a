ghost use Rattle.std.specs.Prelude.{◌≡◌, ◌<◌, ◌≤◌, min, false, length, IfSome, Some, None, vec_len, nat_le, slice_index_or};
ghost use Rattle.keyed.specs.Rows.{Rising, Gap, Stands, ranked_between};
ghost use Rattle.keyed.specs.Laws.{Under};
ghost use Rattle.keyed.specs.Places.{records, serving};
ghost use Rattle.keyed.specs.Tables.{no_place, entries, room, holds, Located, Sets, Inserts, Replaces, Fresh};

use super::{Refusal, Table};
use crate::keys::Keyed;
use crate::places::Places;
use crate::slices::{find, range};

// What `Places` has is handed on one by one: a `Deref` would hand out its `append` and `load` too, which may break the order.
impl<R: Keyed + Copy> Table<R> {
    // A table with no record. Of the places at most `most` serve.
    pub fn new(places: Vec<R>, most: usize) -> Table<R>
        ensures { Fresh R.Keyed.key result (min most (vec_len places)) }
    {
        Table {
            rows: Places::new(places, most),
        }
    }

    // The table of records that stand on places already, once their keys rise.
    pub fn of(rows: Places<R>) -> Table<R>
        requires { Rising R.Keyed.key (records rows) }
        ensures records { entries result ≡ records rows }
        ensures room { room result ≡ serving rows }
    {
        Table { rows }
    }

    // The records on their places, where any others may then be put.
    pub fn into_places(self) -> Places<R>
        ensures records { records result ≡ entries self }
        ensures serving { serving result ≡ room self }
    {
        let Table { rows } = self;
        rows
    }

    // The records, in the order of their keys.
    pub fn rows(&self) -> &[R]
        ensures rows { result.now ≡ entries self.now }
        ensures rise { Rising R.Keyed.key result.now }
    {
        self.rows.rows()
    }

    // How many records there are.
    pub fn len(&self) -> usize
        ensures { result ≡ length (entries self.now) }
    {
        self.rows.len()
    }

    // Whether each place that serves holds a record.
    pub fn is_full(&self) -> bool
        ensures { result ≡ nat_le (room self.now) (length (entries self.now)) }
    {
        self.rows.is_full()
    }

    // The record at a place: the first has the lowest key.
    pub fn row(&self, at: usize) -> R
        requires { at < length (entries self.now) }
        ensures { result ≡ slice_index_or (entries self.now) at result }
    {
        self.rows.row(at)
    }

    // The record with the key.
    pub fn get(&self, key: R::Key) -> Option<R>
        ensures value { result ≡ holds R.Keyed.key self.now (R.Key.Key.rank key) }
        ensures keyed { IfSome result (λ x. R.Keyed.key x ≡ R.Key.Key.rank key) }
    {
        let at = self.place(key).ok()?;
        Some(self.row(at))
    }

    // The records with keys from `low` to `high`.
    pub fn between(&self, low: R::Key, high: R::Key) -> &[R]
        ensures { result.now ≡ ranked_between R.Keyed.key (R.Key.Key.rank low) (R.Key.Key.rank high) (entries self.now) }
    {
        range(self.rows(), low, high)
    }

    // Puts a record with a new key in, where there is a free place.
    pub fn insert(&mut self, row: R) -> Result<(), Refusal>
        ensures { Inserts R.Keyed.key self.old self.new row result }
    {
        match self.place_of(row) {
            Ok(_) => Err(Refusal::Taken),
            Err(_) if self.is_full() => Err(Refusal::Full),
            Err(at) => {
                self.put_in(at, row);
                Ok(())
            }
        }
    }

    // Puts a record in the place of the one with its key, and gives that one back.
    pub fn replace(&mut self, row: R) -> Option<R>
        ensures { Replaces R.Keyed.key self.old self.new row result }
    {
        let at = self.place_of(row).ok()?;
        Some(self.write(at, row))
    }

    // Takes the record with the key out.
    pub fn remove(&mut self, key: R::Key) -> Option<R>
        ensures was { result ≡ holds R.Keyed.key self.old (R.Key.Key.rank key) }
        ensures sets { Sets R.Keyed.key self.old self.new (R.Key.Key.rank key) None }
    {
        let at = self.place(key).ok()?;
        Some(self.take_out(at))
    }

    // Puts at the key what is given: a record that has it, or none. An Option, so that a change is taken back by putting there
    // what stood there.
    pub fn set(&mut self, key: R::Key, row: Option<R>)
        requires under { Under R.Keyed.key (R.Key.Key.rank key) row }
        requires place { no_place R.Keyed.key self.old (R.Key.Key.rank key) row ≡ false }
        ensures { Sets R.Keyed.key self.old self.new (R.Key.Key.rank key) row }
    {
        match row {
            Some(row) => self.set_row(key, row),
            None => {
                let _ = self.remove(key);
            }
        }
    }

    fn set_row(&mut self, key: R::Key, row: R)
        requires under { R.Keyed.key row ≡ R.Key.Key.rank key }
        requires place { no_place R.Keyed.key self.old (R.Key.Key.rank key) (Some row) ≡ false }
        ensures { Sets R.Keyed.key self.old self.new (R.Key.Key.rank key) (Some row) }
    {
        match self.place(key) {
            Ok(at) => {
                let _ = self.write(at, row);
            }
            Err(at) => self.put_in(at, row),
        }
    }

    // Puts records whose keys rise in the place of all that there are.
    pub fn fill(&mut self, rows: &[R])
        requires fits { length rows.now ≤ room self.old }
        requires rise { Rising R.Keyed.key rows.now }
        ensures records { entries self.new ≡ rows.now }
        ensures room { room self.new ≡ room self.old }
    {
        self.rows.load(rows);
    }

    // Takes every record out.
    pub fn clear(&mut self)
        ensures { Fresh R.Keyed.key self.new (room self.old) }
    {
        self.rows.clear();
    }

    // Where the key stands, or else where it would.
    fn place(&self, key: R::Key) -> Result<usize, usize>
        ensures { Located R.Keyed.key self.now (R.Key.Key.rank key) result }
    {
        find(self.rows(), key)
    }

    // Where a record's key stands, or else where it would.
    fn place_of(&self, row: R) -> Result<usize, usize>
        ensures { Located R.Keyed.key self.now (R.Keyed.key row) result }
    {
        self.place(row.key())
    }

    // Puts a record with a new key in at its place.
    fn put_in(&mut self, at: usize, row: R)
        requires free { length (entries self.old) < room self.old }
        requires gap { Gap R.Keyed.key (entries self.old) (R.Keyed.key row) at }
        ensures { Sets R.Keyed.key self.old self.new (R.Keyed.key row) (Some row) }
    {
        self.rows.put_in(at, row);
    }

    // Puts a record in the place of the one with its key.
    fn write(&mut self, at: usize, row: R) -> R
        requires { Stands R.Keyed.key (entries self.old) (R.Keyed.key row) at }
        ensures was { Some result ≡ holds R.Keyed.key self.old (R.Keyed.key row) }
        ensures sets { Sets R.Keyed.key self.old self.new (R.Keyed.key row) (Some row) }
    {
        self.rows.write(at, row)
    }

    // Takes the record at a place out.
    fn take_out(&mut self, at: usize) -> R
        requires { at < length (entries self.old) }
        ensures row { result ≡ slice_index_or (entries self.old) at result }
        ensures was { Some result ≡ holds R.Keyed.key self.old (R.Keyed.key result) }
        ensures sets { Sets R.Keyed.key self.old self.new (R.Keyed.key result) None }
    {
        self.rows.take_out(at)
    }
}
