// A running number of terms, which isn't followed above the limit.
ghost use Rattle.std.specs.Prelude.{◌≡◌, ◌≤◌, ◌<◌, ◌↔◌, ◌^◌, ◌*◌, ◌+◌, ℕ, IsTrue, Contains, IfSome, IfNone, length, OnOk, OnErr};
ghost use Rattle.rel_formula.specs.Sizes.{HasSize};
ghost use Rattle.rel_terms.specs.Numbers.{Is};
ghost use Rattle.rel_terms.specs.Counting.{Adds};

use std::alloc::AllocError;
use tuple_core::TupleSet;

/// The most terms that are counted.
pub const MOST_TERMS: u32 = 262_144;

// The most nodes of expressions and formulas that a count looks at.
const MOST_LOOKS: u32 = 268_435_456;

// So many terms so far, or more than are counted; and how many nodes were looked at.
#[derive(Drop)]
pub struct Tally {
    pub terms: u32,
    pub looks: u32,
}

impl Tally {
    // No terms, and nothing looked at.
    pub fn new() -> Tally
        ensures terms { result.terms ≡ 0 }
        ensures looks { result.looks ≡ 0 }
    {
        Tally { terms: 0, looks: 0 }
    }

    // Whether there are more terms than are counted.
    pub fn is_above(&self) -> bool
        ensures { IsTrue result ↔ (2 ^ 18 < self.now.terms) }
    {
        self.terms > MOST_TERMS
    }

    // The number of terms, where it isn't above the limit.
    pub fn told(&self) -> Option<u32>
        ensures some { IfSome result (λ n. (n ≡ self.now.terms) × (n ≤ 2 ^ 18)) }
        ensures none { IfNone result (2 ^ 18 < self.now.terms) }
    {
        if self.is_above() {
            None
        } else {
            Some(self.terms)
        }
    }

    // Notes that one more node is looked at. After the most nodes it answers want of memory.
    pub fn look(&mut self) -> Result<(), AllocError>
        ensures terms { OnOk result (self.new.terms ≡ self.old.terms) }
        ensures looks { OnOk result (self.new.looks ≡ self.old.looks + 1) }
        ensures err { OnErr result (2 ^ 28 ≤ self.old.looks) }
    {
        if self.looks >= MOST_LOOKS {
            return Err(AllocError);
        }
        self.looks += 1;
        Ok(())
    }

    // Adds so many terms.
    pub fn add(&mut self, number: usize)
        ensures { Adds (Is number) self.old.terms self.new.terms }
    {
        if !self.is_above() {
            let room = MOST_TERMS - self.terms;
            if number > room as usize {
                self.terms = MOST_TERMS + 1;
            } else {
                self.terms += number as u32;
            }
        }
    }

    // Adds a term for each of `many` things beside each of `each`.
    pub fn add_product(&mut self, many: usize, each: usize)
        ensures { Adds (Is (many * each)) self.old.terms self.new.terms }
    {
        self.add(many.saturating_mul(each));
    }

    // Adds a term for each tuple.
    pub fn add_size(&mut self, set: &TupleSet)
        ensures { Adds (HasSize (Contains set.now.rows)) self.old.terms self.new.terms }
    {
        self.add(set.rows().len());
    }
}
