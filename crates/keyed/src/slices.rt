// Records on slices: found by rising keys, put in and taken out. `add` and `remove` are told how many places are used: before
// the one and after the other a free place stands behind the records.
ghost use Rattle.std.specs.Prelude.{◌≡◌, ◌+◌, ◌-◌, ◌<◌, ◌≤◌, length, take, drop};
ghost use Rattle.std.specs.List.{insert, remove};
ghost use Rattle.std.specs.List.Sorted.{IsSearchInRange};
ghost use Rattle.keyed.specs.Rows.{Rising, Sought, ranked_between};

use crate::keys::{Key, Keyed};

// Where `key` stands, or else where it would. Arm by arm, so that an edit of one place is refused for that place alone.
pub fn find<R: Keyed>(rows: &[R], key: R::Key) -> Result<usize, usize>
    ensures within { IsSearchInRange result (length rows.now) }
    ensures sought { Rising R.Keyed.key rows.now → Sought R.Keyed.key rows.now (R.Key.Key.rank key) result }
{
    match rows.binary_search_by(|row| row.key().compare(key)) {
        Ok(at) => Ok(at),
        Err(at) => Err(at),
    }
}

// The records with keys from `low` to `high`, which stand together.
pub fn range<R: Keyed>(rows: &[R], low: R::Key, high: R::Key) -> &[R]
    ensures { Rising R.Keyed.key rows.now → result.now ≡ ranked_between R.Keyed.key (R.Key.Key.rank low) (R.Key.Key.rank high) rows.now }
{
    let from = rows.partition_point(|row| row.key().compare(low).is_lt());
    let to = rows.partition_point(|row| row.key().compare(high).is_le());
    &rows[from..to.max(from)]
}

// Puts `row` at `at`, and the records from there on one place up, into the first free place.
pub fn add<R: Drop>(table: &mut [R], used: usize, at: usize, row: R)
    requires within { used < length table.old }
    requires place { at ≤ used }
    ensures records { take (used + 1) table.new ≡ insert (take used table.old) at row }
    ensures free { drop (used + 1) table.new ≡ drop (used + 1) table.old }
{
    table[used] = row;
    table[at..used + 1].rotate_right(1);
}

// Takes the record at `at` out, to the end of the used places, and moves those above it one place down.
pub fn remove<R>(table: &mut [R], used: usize, at: usize)
    requires within { used ≤ length table.old }
    requires place { at < used }
    ensures records { take (used - 1) table.new ≡ remove (take used table.old) at }
    ensures free { drop used table.new ≡ drop used table.old }
{
    table[at..used].rotate_left(1);
}
