// The rule of a lock's words, and what each kind of step does to what a pass knows. The kinds are eight:
//
// - a pass is split off, and a pass is taken back (`Halves`), each followed by
// - a look, which tells what the rule says of the own view (`Looks`);
// - a try for the turn, word 0 from 0 to 1, which where it succeeds takes the slot (`Tries`);
// - a count, word 1 (`Counts`);
// - a hand on, word 0 to 0, which gives the slot back (`HandsOn`).
//
// Taking and giving the slot are what those steps do beside the word; the value itself is moved by `exchange`.
use crate::kept::Kept;
use crate::view::View;
use atomic_table::{Join, Play, Split, TableRule};
use std::marker::PhantomData;
use std::snapshot::Snapshot;

/// The rule: what holds between any two steps.
pub struct Order<T> {
    of: PhantomData<T>,
}

impl<T: Kept> TableRule<Option<T>, View<T::Entry, T::Base>, Snapshot<T>> for Order<T> {
    ghost use Rattle.hub_lock.specs.Passes.{first_view};
    ghost use Rattle.hub_lock.specs.Orderly.{IsOrderly};

    ghost holds = { λ key. IsOrderly T.by T.entries T.base (T.base key.value) };

    ghost first = { λ key. first_view (T.base key.value) };
}

/// A try for the turn.
pub struct Tries<T> {
    of: PhantomData<T>,
}

impl<T: Kept> Play<Option<T>, View<T::Entry, T::Base>> for Tries<T> {
    ghost use Rattle.hub_lock.specs.Orderly.{tried};

    ghost then = { tried T.by T.entries T.base };
}

/// A count of the entries.
pub struct Counts<T> {
    of: PhantomData<T>,
}

impl<T: Kept> Play<Option<T>, View<T::Entry, T::Base>> for Counts<T> {
    ghost use Rattle.hub_lock.specs.Orderly.{counted};

    ghost then = { counted T.by T.entries };
}

/// A hand on of the turn.
pub struct HandsOn<T> {
    of: PhantomData<T>,
}

impl<T: Kept> Play<Option<T>, View<T::Entry, T::Base>> for HandsOn<T> {
    ghost use Rattle.hub_lock.specs.Orderly.{handed_on};

    ghost then = { handed_on };
}

/// A look.
pub struct Looks<T> {
    of: PhantomData<T>,
}

impl<T: Kept> Play<Option<T>, View<T::Entry, T::Base>> for Looks<T> {
    ghost use Rattle.hub_lock.specs.Orderly.{looked};

    ghost then = { looked T.by };
}

/// How a pass is split off, and taken back.
pub struct Halves<T> {
    of: PhantomData<T>,
}

impl<T: Kept> Split<View<T::Entry, T::Base>> for Halves<T> {
    ghost use Rattle.hub_lock.specs.Passes.{splitting, split_off};

    ghost left = { splitting };

    ghost right = { split_off };
}

impl<T: Kept> Join<View<T::Entry, T::Base>> for Halves<T> {
    ghost use Rattle.hub_lock.specs.Passes.{joining, spent};

    ghost both = { joining };

    ghost spent = { spent };
}
