// The value, while it is out of the lock.
ghost use Rattle.std.specs.Prelude.{◌≡◌};

use crate::kept::Kept;
use crate::pass::Pass;
use std::marker::Model;
use std::snapshot::Snapshot;

/// The value, while its pass is in turn. Clauses see the value and the pass as `take` left it. It can't be dropped.
pub struct Held<T: Kept> {
    pub(crate) value: T,
    pub(crate) taken: Snapshot<Pass<T>>,
}

impl<T: Kept> Model for Held<T> {
    ghost use Rattle.hub_lock.specs.Passes.{HeldView};

    ghost Value = { HeldView T T.Entry T.Base };

    ghost view = { λ h. record { value = h.value; pass = h.taken.value } };
}

impl<T: Kept> Held<T> {
    /// The value, to read.
    pub fn get(&self) -> &T
        ensures { result.now ≡ self.now.value }
    {
        &self.value
    }
}
