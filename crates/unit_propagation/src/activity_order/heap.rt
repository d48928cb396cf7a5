// The heap of the variables that wait.
ghost use Rattle.std.specs.Prelude.{◌≡◌, ◌↔◌, ◌+◌, ◌*◌, ◌<◌, ◌≤◌, ℕ, List, true, false, IfOk, IsTrue, MatchOption, length, replicate, slice_index_or, slice_set};
ghost use Rattle.unit_propagation.specs.Activity.OrderState.{NoneWaits, IsFirst};
ghost use Rattle.unit_propagation.specs.Activity.Heap.{rank, place_of, rank_at, waiting_of, IsBelow, IsIndexed, IsRankedFrom, IsRising, IsTopBelow, IsHeap, IsSwapped, IsRearranged};

use std::alloc::{AllocError, Global};

/// The variables, the waiting ones first and in a heap, and the place of each of them.
#[derive(Debug, Drop)]
pub(crate) struct VarHeap {
    variables: Vec<u32>,
    places: Vec<u32>,
    waiting: usize,
}

// Whether a variable comes before another: its activity is greater, or the same and it is the lower one.
fn comes_before(activities: &[u64], var: u32, other: u32) -> bool
    requires var { var < length activities.now }
    requires other { other < length activities.now }
    ensures { IsTrue result ↔ (rank activities.now other < rank activities.now var) }
{
    let own = activities[var as usize];
    let its = activities[other as usize];
    own > its || (own == its && var < other)
}

// The numbers from 0 to the one below this.
fn numbers(alloc: Global, count: u32) -> Result<Vec<u32>, AllocError>
    ensures long { IfOk result (λ v. length v.items ≡ count) }
    ensures own { IfOk result (λ v. (i : ℕ) → i < count → slice_index_or v.items i 0 ≡ i) }
{
    (0..count).collect(alloc)
}

impl VarHeap {
    /// All variables below this number wait, in order, as long as their activities are 0.
    pub(crate) fn all(alloc: Global, vars: u32) -> Result<VarHeap, AllocError>
        ensures heap { IfOk result (IsHeap (replicate vars 0)) }
        ensures waiting { IfOk result (λ h. waiting_of h ≡ replicate vars true) }
    {
        Ok(VarHeap {
            variables: numbers(alloc, vars)?,
            places: numbers(alloc, vars)?,
            waiting: vars as usize,
        })
    }

    /// The same variables, each at the same place.
    pub(crate) fn copy(&self, alloc: Global) -> Result<VarHeap, AllocError>
        ensures heap { (activities : List ℕ) → IsHeap activities self.now → IfOk result (IsHeap activities) }
        ensures waiting { IfOk result (λ h. waiting_of h ≡ waiting_of self.now) }
    {
        let variables = Vec::from_slice(alloc, self.variables.as_slice())?;
        let places = Vec::from_slice(alloc, self.places.as_slice())?;
        Ok(VarHeap {
            variables,
            places,
            waiting: self.waiting,
        })
    }

    /// Whether a variable waits.
    pub(crate) fn waits(&self, var: u32) -> bool
        requires { var < length (waiting_of self.now) }
        ensures { result ≡ slice_index_or (waiting_of self.now) var false }
    {
        (self.places[var as usize] as usize) < self.waiting
    }

    // The variables at two places change places.
    fn swap(&mut self, one: usize, other: usize)
        requires indexed { IsIndexed self.old }
        requires one { one < length self.old.variables.items }
        requires other { other < length self.old.variables.items }
        ensures { IsSwapped one other self.old self.new }
    {
        let var = self.variables[one];
        let second = self.variables[other];
        self.variables[one] = second;
        self.variables[other] = var;
        self.places[second as usize] = one as u32;
        self.places[var as usize] = other as u32;
    }

    // The place above this one, where its variable doesn't come before this one's.
    fn later_above(&self, activities: &[u64], at: usize) -> Option<usize>
        requires indexed { IsIndexed self.now }
        requires long { length activities.now ≡ length self.now.variables.items }
        requires in_range { at < length self.now.variables.items }
        ensures { MatchOption result ((i : ℕ) → IsBelow i at → rank_at activities.now self.now at ≤ rank_at activities.now self.now i) (λ above. IsBelow above at × (rank_at activities.now self.now above ≤ rank_at activities.now self.now at)) }
    {
        if at == 0 {
            return None;
        }
        let above = (at - 1) / 2;
        let is_before = comes_before(activities, self.variables[above], self.variables[at]);
        if is_before { None } else { Some(above) }
    }

    // Brings the variable at this place up, until the one above it comes before it.
    fn rise(&mut self, activities: &[u64], from: usize)
        requires indexed { IsIndexed self.old }
        requires long { length activities.now ≡ length self.old.variables.items }
        requires in_range { from < self.old.waiting }
        requires rising { IsRising self.old.waiting from (rank_at activities.now self.old) }
        ensures same { IsRearranged self.old self.new }
        ensures ranked { IsRankedFrom 0 self.new.waiting (rank_at activities.now self.new) }
    {
        let mut at = from;
        'rising: while let Some(above) = self.later_above(activities, at) {
            self.swap(at, above);
            at = above;
        }
    }

    // Of the places right below this one, the one whose variable comes first.
    fn first_below(&self, activities: &[u64], at: usize) -> Option<usize>
        requires indexed { IsIndexed self.now }
        requires long { length activities.now ≡ length self.now.variables.items }
        requires in_range { at ≤ length self.now.variables.items }
        ensures { MatchOption result (self.now.waiting ≤ 2 * at + 1) (IsTopBelow self.now.waiting at (rank_at activities.now self.now)) }
    {
        let left = 2 * at + 1;
        let right = 2 * at + 2;
        if left >= self.waiting {
            return None;
        }
        if right >= self.waiting {
            return Some(left);
        }
        let is_left = comes_before(activities, self.variables[left], self.variables[right]);
        Some(if is_left { left } else { right })
    }

    // The place of the first variable below this place, where this one's doesn't come before it.
    fn earlier_below(&self, activities: &[u64], at: usize) -> Option<usize>
        requires indexed { IsIndexed self.now }
        requires long { length activities.now ≡ length self.now.variables.items }
        requires in_range { at ≤ length self.now.variables.items }
        ensures { MatchOption result ((j : ℕ) → j < self.now.waiting → IsBelow at j → rank_at activities.now self.now j ≤ rank_at activities.now self.now at) (λ below. IsTopBelow self.now.waiting at (rank_at activities.now self.now) below × (rank_at activities.now self.now at ≤ rank_at activities.now self.now below)) }
    {
        let below = self.first_below(activities, at)?;
        let is_before = comes_before(activities, self.variables[at], self.variables[below]);
        if is_before { None } else { Some(below) }
    }

    // Brings the variable at this place down, until it comes before those below it.
    fn sink(&mut self, activities: &[u64], from: usize)
        requires indexed { IsIndexed self.old }
        requires long { length activities.now ≡ length self.old.variables.items }
        requires in_range { from ≤ length self.old.variables.items }
        requires ranked { IsRankedFrom (from + 1) self.old.waiting (rank_at activities.now self.old) }
        ensures same { IsRearranged self.old self.new }
        ensures ranked { IsRankedFrom from self.new.waiting (rank_at activities.now self.new) }
    {
        let mut at = from;
        'sinking: while let Some(below) = self.earlier_below(activities, at) {
            self.swap(at, below);
            at = below;
        }
    }

    /// Puts the waiting variables in order, whatever their activities are now.
    pub(crate) fn mend(&mut self, activities: &[u64])
        requires indexed { IsIndexed self.old }
        requires long { length activities.now ≡ length self.old.variables.items }
        ensures heap { IsHeap activities.now self.new }
        ensures same { waiting_of self.new ≡ waiting_of self.old }
    {
        for at in (0..self.waiting / 2).rev() {
            self.sink(activities, at);
        }
    }

    /// Brings a variable up whose activity is greater now, if it waits.
    pub(crate) fn lift(&mut self, activities: &[u64], var: u32)
        requires indexed { IsIndexed self.old }
        requires long { length activities.now ≡ length self.old.variables.items }
        requires in_range { var < length activities.now }
        requires rising { IsRising self.old.waiting (place_of self.old var) (rank_at activities.now self.old) }
        ensures heap { IsHeap activities.now self.new }
        ensures same { waiting_of self.new ≡ waiting_of self.old }
    {
        let place = self.places[var as usize] as usize;
        if place < self.waiting {
            self.rise(activities, place);
        }
    }

    /// The first of the waiting variables, which waits no more.
    pub(crate) fn take_first(&mut self, activities: &[u64]) -> Option<u32>
        requires { IsHeap activities.now self.old }
        ensures heap { IsHeap activities.now self.new }
        ensures first { MatchOption result (NoneWaits (waiting_of self.old)) (IsFirst activities.now (waiting_of self.old)) }
        ensures left { MatchOption result (waiting_of self.new ≡ waiting_of self.old) (λ var. waiting_of self.new ≡ slice_set (waiting_of self.old) var false) }
    {
        if self.waiting == 0 {
            return None;
        }
        let var = self.variables[0];
        let last = self.waiting - 1;
        self.swap(0, last);
        self.waiting = last;
        self.sink(activities, 0);
        Some(var)
    }

    /// The variable waits again, if it didn't.
    pub(crate) fn put_back(&mut self, activities: &[u64], var: u32)
        requires heap { IsHeap activities.now self.old }
        requires in_range { var < length activities.now }
        ensures heap { IsHeap activities.now self.new }
        ensures waits { waiting_of self.new ≡ slice_set (waiting_of self.old) var true }
    {
        let place = self.places[var as usize] as usize;
        let last = self.waiting;
        if place >= last {
            self.swap(place, last);
            self.waiting = last + 1;
            self.rise(activities, last);
        }
    }
}
