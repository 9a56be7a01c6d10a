// The laws of changes, look-ups and sums. A function here does nothing: its contract is the law.
ghost use Rattle.keyed.specs.Laws.{LookedUp, Decided, KeysCounted, TakenBack, Placed, Reordering, Sized, Sums};

use crate::keys::Keyed;

// What is found after a record is added, replaced or removed, at its key and at the others.
pub fn looked_up<R: Keyed>()
    ensures { LookedUp R.Keyed.key }
{}

// Two lists with the same look-ups are the same.
pub fn decided<R: Keyed>()
    ensures { Decided R.Keyed.key }
{}

// There are as many keys as records, and a record is found under just these.
pub fn counted<R: Keyed>()
    ensures { KeysCounted R.Keyed.key }
{}

// A change is taken back by putting there what stood there.
pub fn taken_back<R: Keyed>()
    ensures { TakenBack R.Keyed.key }
{}

// A change changes one place.
pub fn placed<R: Keyed>()
    ensures { Placed R.Keyed.key }
{}

// A change puts the new record to those with other keys, in some order.
pub fn reordered<R: Keyed>()
    ensures { Reordering R.Keyed.key }
{}

// How many records there are after a change.
pub fn sized<R: Keyed>()
    ensures { Sized R.Keyed.key }
{}

// Sums over the records after a change.
pub fn summed<R: Keyed>()
    ensures { Sums R.Keyed.key }
{}
