// The lock.
ghost use Rattle.std.specs.Prelude.{◌≡◌, ◌≢◌, ℕ, ◌+◌, ◌<◌, ◌≤◌, [], ◌∷◌, ◌++◌, Some, None, IfOk, IfSome, IfNone, length, All};
ghost use Rattle.hub_lock.specs.Passes.{of_pass, in_turn, out_of_turn, seeing, Adds, splitting, split_off, joining, last_of, IsJoined};
ghost use mathlib.Core.List.{IsPrefix};

use crate::held::Held;
use crate::kept::Kept;
use crate::order::{Counts, Halves, HandsOn, Looks, Order, Tries};
use crate::pass::Pass;
use crate::view::View;
use atomic_table::Table;
use std::alloc::Global;
use std::marker::Model;
use std::snapshot::Snapshot;
use std::sync::Wait;
use std::thread;

/// A value that passes take in turn. Word 0 is 1 while the turn is held, word 1 counts the entries, and the one slot has
/// the value while the turn is free. Clauses see which lock it is.
#[derive(Drop)]
pub struct Turns<T: Kept> {
    pub(crate) table: Table<Option<T>, View<T::Entry, T::Base>, Snapshot<T>, Order<T>, Global>,
}

impl<T: Kept> Model for Turns<T> {
    ghost use Rattle.std.specs.Prelude.{◌≡◌};
    ghost use Rattle.atomic_table.specs.Seated.{TableId, table_id_coded};

    ghost Value = { TableId };

    ghost coded = { table_id_coded };

    ghost view = { λ t. t.table.shared.table_id };

    ghost invariant = { λ t. (t.table.shared.table_id.words ≡ 2) × (t.table.shared.table_id.slots ≡ 1) };
}

impl<T: Kept> Turns<T> {
    /// Splits a pass off from the first one. It has the next number, has seen what the first one has, and has no entries
    /// of its own. Takes no memory.
    pub fn split(&self, p: &mut Pass<T>) -> Pass<T>
        requires own { p.old.lock ≡ self.now }
        requires first { p.old.view.number ≡ 0 }
        requires idle { p.old.view.turn ≡ None }
        requires room { p.old.view.made < 4294967295 }
        ensures own { (p.new.lock ≡ p.old.lock) × (result.lock ≡ p.old.lock) }
        ensures first { p.new.view ≡ splitting p.old.view }
        ensures other { result.view ≡ split_off p.old.view }
        ensures none { of_pass T.by (p.old.view.made + 1) p.old.view.seen ≡ [] }
    {
        let mut seat = self.table.shared.split_seat::<Halves<T>>(&mut p.seat);
        self.table.shared.load::<Looks<T>>(&mut seat, 0);
        p.made += 1;
        p.live += 1;
        Pass {
            seat,
            number: p.made,
            made: 0,
            live: 0,
        }
    }

    /// Takes a pass back. The first pass has then seen the longer of both lists, which begins with both. In it the other's
    /// entries are the other's own, and those under numbers that were taken back before are as they were. Takes no memory.
    pub fn join(&self, p: &mut Pass<T>, other: Pass<T>)
        requires own { (p.old.lock ≡ self.now) × (other.lock ≡ self.now) }
        requires first { (p.old.view.number ≡ 0) × (other.view.number ≢ 0) }
        requires idle { (p.old.view.turn ≡ None) × (other.view.turn ≡ None) }
        ensures own { p.new.lock ≡ p.old.lock }
        ensures view { p.new.view ≡ joining p.old.view other.view }
        ensures joined { IsJoined T.by p.new.view (last_of p.old.view other.view) }
        ensures mine { of_pass T.by 0 p.new.view.seen ≡ p.new.view.own }
        ensures numbers { All (λ e. T.by e ≤ p.new.view.made) p.new.view.seen }
    {
        let Pass {
            seat,
            number: _,
            made: _,
            live: _,
        } = other;
        self.table.shared.join_seat::<Halves<T>>(&mut p.seat, seat);
        self.table.shared.load::<Looks<T>>(&mut p.seat, 0);
        p.live -= 1;
    }

    // The value, if the turn was free.
    fn try_take(&self, p: &mut Pass<T>) -> Option<Held<T>>
        requires own { p.old.lock ≡ self.now }
        requires idle { p.old.view.turn ≡ None }
        ensures own { p.new.lock ≡ p.old.lock }
        ensures none { IfNone result (p.new ≡ p.old) }
        ensures view { IfSome result (λ h. p.new.view ≡ in_turn p.old.view (T.entries h.value)) }
        ensures pass { IfSome result (λ h. h.pass ≡ p.new) }
        ensures seen { IfSome result (λ h. IsPrefix p.old.view.seen (T.entries h.value)) }
        ensures mine { IfSome result (λ h. of_pass T.by p.old.view.number (T.entries h.value) ≡ p.old.view.own) }
        ensures base { IfSome result (λ h. p.old.view.base ≡ Some (T.base h.value)) }
    {
        let found = self
            .table
            .shared
            .compare_exchange::<Tries<T>>(&mut p.seat, 0, 0, 1);
        if found == 0 {
            let slot = self.table.shared.exchange(&mut p.seat, 0, None);
            let Some(value) = slot else { unreachable!() };
            let taken = Snapshot::of(p);
            Some(Held { value, taken })
        } else {
            None
        }
    }

    /// Tries for the turn until it has it, and lets other threads go on between two tries. The held value has the base
    /// that the lock was made with; its entries begin with all that the pass had seen, and those under the pass's number are
    /// its own, each once and in order. Takes no memory.
    pub fn take<R: Wait>(&self, rt: &R, p: &mut Pass<T>) -> Held<T>
        requires own { p.old.lock ≡ self.now }
        requires idle { p.old.view.turn ≡ None }
        ensures own { p.new.lock ≡ p.old.lock }
        ensures view { p.new.view ≡ in_turn p.old.view (T.entries result.value) }
        ensures pass { result.pass ≡ p.new }
        ensures seen { IsPrefix p.old.view.seen (T.entries result.value) }
        ensures mine { of_pass T.by p.old.view.number (T.entries result.value) ≡ p.old.view.own }
        ensures base { p.old.view.base ≡ Some (T.base result.value) }
    {
        for _ in rt.forever() {
            if let Some(held) = self.try_take(p) {
                return held;
            }
            thread::yield_now();
        }
        unreachable!()
    }

    /// Gives the value back and hands the turn on. The value's entries are those at `take`, and then none or one under the
    /// pass's number; the pass has then seen them all. Takes no memory.
    pub fn give(&self, p: &mut Pass<T>, h: Held<T>)
        requires own { p.old.lock ≡ self.now }
        requires pass { h.pass ≡ p.old }
        requires entries { Adds T.by p.old.view (T.entries h.value) }
        requires base { p.old.view.base ≡ Some (T.base h.value) }
        ensures own { p.new.lock ≡ p.old.lock }
        ensures view { p.new.view ≡ out_of_turn (seeing T.by p.old.view (T.entries h.value)) }
    {
        let Held { value, taken: _ } = h;
        let count = value.count();
        let _ = self.table.shared.exchange(&mut p.seat, 0, Some(value));
        self.table.shared.store::<Counts<T>>(&mut p.seat, 1, count);
        self.table.shared.store::<HandsOn<T>>(&mut p.seat, 0, 0);
    }

    /// Ends the lock, once every other pass was taken back. The value's entries are exactly those that the first pass has
    /// seen. Takes no memory.
    pub fn close(self, p: Pass<T>) -> T
        requires own { p.lock ≡ self }
        requires first { p.view.number ≡ 0 }
        requires idle { p.view.turn ≡ None }
        requires alone { p.view.live ≡ 0 }
        ensures entries { T.entries result ≡ p.view.seen }
        ensures mine { of_pass T.by 0 (T.entries result) ≡ p.view.own }
        ensures numbers { All (λ e. T.by e ≤ p.view.made) (T.entries result) }
        ensures base { p.view.base ≡ Some (T.base result) }
    {
        let Pass {
            seat,
            number: _,
            made: _,
            live: _,
        } = p;
        let Turns { table } = self;
        let mut closed = table.close_with(seat);
        let last = closed.take(0);
        closed.free();
        let Some(value) = last else { unreachable!() };
        value
    }
}
