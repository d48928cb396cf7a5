// The store of a session.
ghost use Rattle.std.specs.Prelude.{◌≡◌, ◌≢◌, ◌∷◌, ◌++◌, ◌+◌, ◌<◌, [], IfOk, OnOk, OnErr, IsTrue, MatchOption, length, drop, if◌then◌else◌};
ghost use Rattle.session_rules.specs.States.{Start, top_floor, shown_here, has_ended, HasEndedWith, IsCurrent, after};
ghost use Rattle.session_state.specs.Store.Stored.{copies_at, copies_kept, copies_after};

use crate::session_store::floors::{
    Ended, Found, copies_at as copies_of, enter, last_at, proof_at, push_all, push_end, put_first,
    top_of,
};
use rel_formula::Scenario;
use session_rules::{EndProof, Reply, Scenarios};
use std::alloc::{AllocError, Global};
use std::marker::Model;

/// The state of a session, and the copies of shown scenarios that its searches found, each with its floor. Contracts see these,
/// and the room that was made: one for a reply, and one for each copy that comes with it.
///
/// Each floor that was reached has a number; the bottom has the first.
#[derive(Drop)]
pub struct SessionStore {
    floors: Vec<Scenario>,
    above: Vec<usize>,
    shown: Vec<Found>,
    ended: Vec<Ended>,
    copies: Vec<Found>,
    budget: u32,
    room: usize,
}

impl Model for SessionStore {
    ghost use Rattle.session_state.specs.Store.Numbered.{state_of, found_there};
    ghost use Rattle.session_state.specs.Store.Stored.{Stored, IsStored};

    ghost Value = { Stored };

    ghost view = { λ t. record {
      state = state_of t.floors.items t.above.items t.shown.items t.ended.items t.budget;
      copies = found_there t.floors.items t.copies.items;
      room = t.room;
    } };

    ghost invariant = { IsStored };
}

impl SessionStore {
    /// The store of a session at the start, with this budget.
    pub fn new(alloc: Global, budget: u32) -> Result<SessionStore, AllocError>
        ensures { IfOk result (λ s. s ≡ record { state = Start budget; copies = []; room = 0 }) }
    {
        let floors = vec![in alloc; Scenario::new(alloc)]?;
        Ok(SessionStore {
            floors,
            above: Vec::new(alloc),
            shown: Vec::new(alloc),
            ended: Vec::new(alloc),
            copies: Vec::new(alloc),
            budget,
            room: 0,
        })
    }

    /// The top floor.
    pub fn floor(&self) -> &Scenario
        ensures { result.now ≡ top_floor self.now.state }
    {
        &self.floors[top_of(self.above.as_slice())]
    }

    /// How many floors stand above the bottom.
    pub fn height(&self) -> usize
        ensures { result ≡ length self.now.state.above }
    {
        self.above.len()
    }

    /// The budget.
    pub fn budget(&self) -> u32
        ensures { result ≡ self.now.state.budget }
    {
        self.budget
    }

    /// Copies of the scenarios that were shown at the top floor, in order.
    pub fn shown_here(&self, alloc: Global) -> Result<Vec<Scenario>, AllocError>
        ensures { IfOk result (λ shown. shown.items ≡ shown_here self.now.state) }
    {
        copies_of(alloc, self.shown.as_slice(), top_of(self.above.as_slice()))
    }

    /// Copies of the copies that were found at the top floor, in order.
    pub fn copies_here(&self, alloc: Global) -> Result<Vec<Scenario>, AllocError>
        ensures { IfOk result (λ copies. copies.items ≡ copies_at (top_floor self.now.state) self.now) }
    {
        copies_of(alloc, self.copies.as_slice(), top_of(self.above.as_slice()))
    }

    /// The last scenario that was shown at the top floor.
    pub fn current(&self) -> Option<&Scenario>
        ensures { MatchOption result (shown_here self.now.state ≡ []) (λ s. IsCurrent self.now.state s.now) }
    {
        last_at(self.shown.as_slice(), top_of(self.above.as_slice()))
    }

    /// The proof of the end of the top floor, where it has ended.
    pub fn proof(&self) -> Option<&EndProof>
        ensures { MatchOption result (¬ IsTrue (has_ended (top_floor self.now.state) self.now.state)) (λ p. HasEndedWith self.now.state p.now) }
    {
        proof_at(self.ended.as_slice(), top_of(self.above.as_slice()))
    }

    /// Makes room for a reply that was reached with so many copies, fewer than a million. The error comes only for want of memory.
    pub fn reserve(&mut self, copies: usize) -> Result<(), AllocError>
        requires { copies < 1000000 }
        ensures state { self.new.state ≡ self.old.state }
        ensures copies { self.new.copies ≡ self.old.copies }
        ensures room { OnOk result (self.new.room ≡ copies + 1) }
        ensures err { OnErr result (self.new ≡ self.old) }
    {
        self.floors.try_reserve(1)?;
        self.above.try_reserve(1)?;
        self.shown.try_reserve(1)?;
        self.ended.try_reserve(1)?;
        self.copies.try_reserve(copies)?;
        self.room = copies + 1;
        Ok(())
    }

    /// Takes in a reply of the machine, with the copies that were found on the way to it. It takes no memory: there has to be
    /// room. Copies on the way to what was shown, or to an end, are kept, up to a million in all.
    pub fn apply(&mut self, reply: Reply, copies: Scenarios)
        requires room { length copies < self.old.room }
        ensures state { self.new.state ≡ after self.old.state reply }
        ensures copies { self.new.copies ≡ copies_after self.old reply copies }
    {
        match reply {
            Reply::Shown {
                number: _,
                scenario,
            } => {
                self.keep_copies(copies);
                self.show(scenario);
            }
            Reply::End { number: _, proof } => {
                self.keep_copies(copies);
                self.end(proof);
            }
            Reply::Augmented { floor } => self.go_up(floor),
            Reply::Back => self.go_back(),
            Reply::BudgetSet(budget) => self.set_budget(budget),
            Reply::Offers { cells: _cells } => {}
            Reply::All {
                scenarios: _scenarios,
            } => {}
            Reply::Partly {
                first: _,
                scenarios: _scenarios,
            } => {}
            Reply::Proof { proof: _proof } => {}
            Reply::Refused(_refusal) => {}
            Reply::Memory => {}
        }
    }

    // Keeps copies that were found at the top floor, up to a million in all.
    fn keep_copies(&mut self, copies: Scenarios)
        requires room { length copies < self.old.room }
        ensures state { self.new.state ≡ self.old.state }
        ensures copies { self.new.copies ≡ self.old.copies ++ copies_kept self.old copies }
        ensures room { 0 < self.new.room }
    {
        let floor = top_of(self.above.as_slice());
        push_all(&mut self.copies, floor, copies.into_scenarios());
        self.room = 1;
    }

    // A scenario was shown at the top floor.
    fn show(&mut self, scenario: Scenario)
        requires room { 0 < self.old.room }
        ensures state { self.new.state ≡ record self.old.state { shown = self.old.state.shown ++ record { floor = top_floor self.old.state; scenario = scenario } ∷ [] } }
        ensures copies { self.new.copies ≡ self.old.copies }
    {
        let floor = top_of(self.above.as_slice());
        let _ = self.shown.push(Found { floor, scenario });
        self.room = 0;
    }

    // The top floor has ended with this proof, if it has not ended before.
    fn end(&mut self, proof: EndProof)
        requires room { 0 < self.old.room }
        ensures state { self.new.state ≡ (if has_ended (top_floor self.old.state) self.old.state then self.old.state else record self.old.state { ended = self.old.state.ended ++ record { floor = top_floor self.old.state; proof = proof } ∷ [] }) }
        ensures copies { self.new.copies ≡ self.old.copies }
    {
        let floor = top_of(self.above.as_slice());
        push_end(&mut self.ended, floor, proof);
        self.room = 0;
    }

    // One floor more stands on top.
    fn go_up(&mut self, floor: Scenario)
        requires room { 0 < self.old.room }
        ensures state { self.new.state ≡ record self.old.state { above = floor ∷ self.old.state.above } }
        ensures copies { self.new.copies ≡ self.old.copies }
    {
        let number = enter(&mut self.floors, floor);
        put_first(&mut self.above, number);
        self.room = 0;
    }

    // The top floor is left, if it is not the bottom.
    fn go_back(&mut self)
        ensures state { self.new.state ≡ record self.old.state { above = drop 1 self.old.state.above } }
        ensures copies { self.new.copies ≡ self.old.copies }
    {
        if !self.above.is_empty() {
            let _ = self.above.remove(0);
        }
    }

    // Another budget.
    fn set_budget(&mut self, budget: u32)
        ensures state { self.new.state ≡ record self.old.state { budget = budget } }
        ensures copies { self.new.copies ≡ self.old.copies }
    {
        self.budget = budget;
    }
}
