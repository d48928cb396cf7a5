// Lists of numbers in which the place of each is found at once.
ghost use Rattle.std.specs.Prelude.{◌≡◌, ◌+◌, ◌++◌, ℕ, List, [], ◌∷◌, Some, length, drop, OnOk, OnErr};
ghost use Rattle.name_tables.specs.Occurrence.{occurrence, once_more, is_among};
ghost use Rattle.name_tables.specs.Levels.{place_of};

use crate::cover::cover;
use std::alloc::{AllocError, Global};
use std::marker::Model;

// Where a number stands in a list: nowhere, at this place alone, or at this place and again.
#[derive(Clone, Copy)]
pub enum Occurrence {
    Never,
    Once(usize),
    Again(usize),
}

// A list of numbers. Contracts see the list.
#[derive(Drop)]
pub struct Firsts {
    numbers: Vec<usize>,
    occurrences: Vec<Occurrence>,
}

impl Model for Firsts {
    ghost use Rattle.std.specs.Prelude.{List, ℕ};
    ghost use Rattle.name_tables.specs.Occurrence.{AreFirsts};

    ghost Value = { List ℕ };

    ghost view = { λ f. f.numbers.items };

    ghost invariant = { λ f. AreFirsts f.numbers.items f.occurrences.items };
}

impl Firsts {
    // No number.
    pub fn new(alloc: Global) -> Firsts
        ensures { result ≡ [] }
    {
        Firsts {
            numbers: Vec::new(alloc),
            occurrences: Vec::new(alloc),
        }
    }

    // How many numbers the list has.
    pub fn len(&self) -> usize
        ensures { result ≡ length self.now }
    {
        self.numbers.len()
    }

    // Where a number stands.
    pub fn occurrence(&self, number: usize) -> Occurrence
        ensures { result ≡ occurrence number self.now }
    {
        if number < self.occurrences.len() {
            self.occurrences[number]
        } else {
            Occurrence::Never
        }
    }

    // The first place of a number.
    pub fn place(&self, number: usize) -> Option<usize>
        ensures { result ≡ place_of number self.now }
    {
        match self.occurrence(number) {
            Occurrence::Never => None,
            Occurrence::Once(first) | Occurrence::Again(first) => Some(first),
        }
    }

    // Whether a number stands behind its first place too.
    pub fn is_repeated(&self, number: usize) -> bool
        ensures { (first : ℕ) → place_of number self.now ≡ Some first → result ≡ is_among (drop (first + 1) self.now) number }
    {
        match self.occurrence(number) {
            Occurrence::Never | Occurrence::Once(_) => false,
            Occurrence::Again(_) => true,
        }
    }

    // Puts a number at the end of the list.
    pub fn push(&mut self, number: usize) -> Result<(), AllocError>
        ensures ok { OnOk result (self.new ≡ self.old ++ number ∷ []) }
        ensures err { OnErr result (self.new ≡ self.old) }
    {
        cover(&mut self.occurrences, number, Occurrence::Never)?;
        let occurrence = once_more(self.numbers.len(), self.occurrences[number]);
        self.numbers.push(number)?;
        self.occurrences[number] = occurrence;
        Ok(())
    }
}

// Where a number stands that is put at this place too.
fn once_more(place: usize, occurrence: Occurrence) -> Occurrence
    ensures { result ≡ once_more place occurrence }
{
    match occurrence {
        Occurrence::Never => Occurrence::Once(place),
        Occurrence::Once(first) | Occurrence::Again(first) => Occurrence::Again(first),
    }
}
