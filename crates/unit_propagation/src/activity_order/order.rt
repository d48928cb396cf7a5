// Activities, and the variable that is decided next.
ghost use Rattle.std.specs.Prelude.{◌≡◌, ◌+◌, ◌/◌, ◌<◌, ◌≤◌, ◌^◌, true, false, IfOk, MatchOption, length, map, replicate, slice_index_or};
ghost use Rattle.unit_propagation.specs.Activity.OrderState.{activity_of, with_waiting, with_room, raised, next_increment, decayed, NoneWaits, IsFirst, IsBounded};

use crate::activity_order::heap::VarHeap;
use std::alloc::{AllocError, Global};
use std::marker::Model;

// No activity and no increment is above this.
const MOST: u64 = 1 << 62;

/// The variables below a number, the activity of each, and which of them wait to be decided. Contracts see the
/// activities, the increment, and whether each variable waits.
#[derive(Debug, Drop)]
pub struct ActivityOrder {
    activities: Vec<u64>,
    increment: u64,
    heap: VarHeap,
}

impl Model for ActivityOrder {
    ghost use Rattle.unit_propagation.specs.Activity.OrderState.{OrderState};

    ghost Value = { OrderState };

    ghost use Rattle.unit_propagation.specs.Activity.Heap.{waiting_of};
    ghost use Rattle.unit_propagation.specs.Activity.Kept.{IsKept};

    ghost view = { λ o. record { activities = o.activities.items; increment = o.increment; waiting = waiting_of o.heap } };

    ghost invariant = { IsKept };
}

fn zeros(alloc: Global, vars: u32) -> Result<Vec<u64>, AllocError>
    ensures { IfOk result (λ v. v.items ≡ replicate vars 0) }
{
    vec![in alloc; 0; vars as usize]
}

fn halve(activities: &mut [u64])
    ensures { activities.new ≡ map (λ a. a / 2) activities.old }
{
    for activity in activities.iter_mut() {
        *activity /= 2;
    }
}

// The increment after this one.
fn after(increment: u64) -> u64
    requires { increment ≤ 2 ^ 62 }
    ensures { result ≡ next_increment increment }
{
    increment + increment / 19 + 1
}

impl ActivityOrder {
    /// All variables below this number wait, their activities are 0, and the increment is 1.
    pub fn new(alloc: Global, vars: u32) -> Result<ActivityOrder, AllocError>
        ensures { IfOk result (λ o. o ≡ record { activities = replicate vars 0; increment = 1; waiting = replicate vars true }) }
    {
        Ok(ActivityOrder {
            activities: zeros(alloc, vars)?,
            increment: 1,
            heap: VarHeap::all(alloc, vars)?,
        })
    }

    /// An equal order.
    pub fn copy(&self, alloc: Global) -> Result<ActivityOrder, AllocError>
        ensures { IfOk result (λ o. o ≡ self.now) }
    {
        let activities = Vec::from_slice(alloc, self.activities.as_slice())?;
        let heap = self.heap.copy(alloc)?;
        Ok(ActivityOrder {
            activities,
            increment: self.increment,
            heap,
        })
    }

    /// The number of variables.
    pub fn vars(&self) -> u32
        ensures vars { result ≡ length self.now.activities }
        ensures bounded { IsBounded self.now }
    {
        self.activities.len() as u32
    }

    /// The activity of a variable, at most 2^62.
    pub fn activity(&self, var: u32) -> u64
        requires { var < length self.now.activities }
        ensures { result ≡ activity_of self.now.activities var }
    {
        self.activities[var as usize]
    }

    /// Whether a variable waits.
    pub fn is_waiting(&self, var: u32) -> bool
        requires { var < length self.now.activities }
        ensures { result ≡ slice_index_or self.now.waiting var false }
    {
        self.heap.waits(var)
    }

    /// The waiting variable of the greatest activity, the lowest of those that have it, or none where none waits. It
    /// waits no more.
    pub fn take_first(&mut self) -> Option<u32>
        ensures first { MatchOption result (NoneWaits self.old.waiting) (IsFirst self.old.activities self.old.waiting) }
        ensures taken { MatchOption result (self.new ≡ self.old) (λ var. self.new ≡ with_waiting self.old var false) }
    {
        self.heap.take_first(self.activities.as_slice())
    }

    /// The variable waits again, if it didn't.
    pub fn put_back(&mut self, var: u32)
        requires { var < length self.old.activities }
        ensures { self.new ≡ with_waiting self.old var true }
    {
        self.heap.put_back(self.activities.as_slice(), var);
    }

    // Halves the increment and all activities, where this sum is too great.
    fn make_room(&mut self, sum: u64)
        ensures { self.new ≡ with_room self.old sum }
    {
        if sum > MOST {
            halve(self.activities.as_mut_slice());
            self.increment /= 2;
            self.heap.mend(self.activities.as_slice());
        }
    }

    /// Adds the increment to the activity of a variable. Where the sum would be above 2^62, the increment and all
    /// activities are halved before, rounded down.
    pub fn raise(&mut self, var: u32)
        requires { var < length self.old.activities }
        ensures raised { self.new ≡ raised self.old var }
        ensures waiting { self.new.waiting ≡ self.old.waiting }
        ensures vars { length self.new.activities ≡ length self.old.activities }
    {
        let sum = self.activities[var as usize] + self.increment;
        self.make_room(sum);
        self.activities[var as usize] += self.increment;
        self.heap.lift(self.activities.as_slice(), var);
    }

    /// Lets the increment grow by a nineteenth and 1, so that what is raised later counts for more. Where it would be
    /// above 2^62, it and all activities are halved before, rounded down.
    pub fn decay(&mut self)
        ensures decayed { self.new ≡ decayed self.old }
        ensures waiting { self.new.waiting ≡ self.old.waiting }
        ensures vars { length self.new.activities ≡ length self.old.activities }
    {
        let next = after(self.increment);
        self.make_room(next);
        self.increment = after(self.increment);
    }
}
