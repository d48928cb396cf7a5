// The right to take turns.
ghost use Rattle.std.specs.Prelude.{◌≡◌};

use crate::kept::Kept;
use crate::view::View;
use atomic_table::Seat;
use std::marker::Model;

/// The right to take turns. Clauses see the lock that it belongs to, and what it knows. It can't be dropped: `join` or
/// `close` takes it.
pub struct Pass<T: Kept> {
    pub(crate) seat: Seat<Option<T>, View<T::Entry, T::Base>>,
    pub(crate) number: u32,
    pub(crate) made: u32,
    pub(crate) live: u32,
}

impl<T: Kept> Model for Pass<T> {
    ghost use Rattle.std.specs.Prelude.{◌≡◌, ◌≤◌, false};
    ghost use Rattle.hub_lock.specs.Passes.{PassView};
    ghost use Rattle.hub_lock.specs.Orderly.{slots_of};

    ghost Value = { PassView T.Entry T.Base };

    ghost view = { λ p. record { lock = p.seat.table_id; view = p.seat.me.0 } };

    ghost invariant = { λ p. (p.seat.me.0.spent ≡ false) × (p.number ≡ p.seat.me.0.number) × (p.made ≡ p.seat.me.0.made) × (p.live ≡ p.seat.me.0.live) × (p.live ≤ p.made) × (p.seat.me.1 ≡ slots_of p.seat.me.0.turn) };
}

impl<T: Kept> Pass<T> {
    /// 0 for the first pass; the others have 1, 2 and so on, in the order in which they were split off.
    pub fn number(&self) -> u32
        ensures { result ≡ self.now.view.number }
    {
        self.number
    }

    /// How many passes were split off from the first one; 0 for another pass.
    pub fn made(&self) -> u32
        ensures { result ≡ self.now.view.made }
    {
        self.made
    }

    /// How many of these were not taken back; 0 for another pass.
    pub fn live(&self) -> u32
        ensures { result ≡ self.now.view.live }
    {
        self.live
    }
}
