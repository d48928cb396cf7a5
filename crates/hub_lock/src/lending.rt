// The held value, to change.
ghost use Rattle.std.specs.Prelude.{◌≡◌};
ghost use Rattle.std.specs.Borrow.{sem, Lends};
ghost use Rattle.hub_lock.specs.contracts.held.Held.{the_row};

use crate::held::Held;
use crate::kept::Kept;

impl<T: Kept> Held<T> {
    /// The value, to change. What is written is the held value afterwards.
    pub fn get_mut(&mut self) -> &mut T
        ensures value { result.now ≡ self.old.value }
        ensures* writes_back { sem 𝓛 (Lends (the_row T.row T.Entry.row T.Base.row T.Kept) T.row self.entry result (λ w. record self.old { value = w })) }
    {
        &mut self.value
    }
}
