// Scenarios: sets of cells, by their numbers.
ghost use Rattle.std.specs.Prelude.{◌≡◌, ◌↔◌, ◌<◌, [], length, AllPairs, Contains, IfOk, OnErr, IsTrue};
ghost use Rattle.tuple_core.specs.Swap.{swap_atoms};
ghost use Rattle.rel_formula.specs.Bounds.{cells_of};
ghost use Rattle.rel_formula.specs.Instance.{AreCells, IsScenario, with_cell};
ghost use Rattle.rel_formula.specs.Renaming.{KeepsBounds, IsCellImage, IsImage};

use crate::problem::Problem;
use std::alloc::{AllocError, Global};
use std::marker::Model;
use tuple_core::Atom;

/// A set of cells, seen as their numbers in rising order. Two scenarios with the same cells are the same.
#[derive(Drop)]
pub struct Scenario {
    numbers: Vec<u32>,
}

impl Model for Scenario {
    ghost use Rattle.std.specs.Prelude.{◌<◌, ℕ, List, AllPairs};

    ghost Value = { List ℕ };

    ghost view = { λ s. s.numbers.items };

    ghost invariant = { λ s. AllPairs (λ m n. m < n) s.numbers.items };
}

impl Scenario {
    /// The scenario without cells.
    pub fn new(alloc: Global) -> Scenario
        ensures { result ≡ [] }
    {
        Scenario {
            numbers: Vec::new(alloc),
        }
    }

    /// Puts the cell of this number in, and says whether it is new.
    pub fn insert(&mut self, number: u32) -> Result<bool, AllocError>
        ensures value { IfOk result (λ _. self.new ≡ with_cell number self.old) }
        ensures new { IfOk result (λ is_new. IsTrue is_new ↔ (Contains self.old number → ⊥)) }
        ensures rising { AllPairs (λ m n. m < n) self.new }
        ensures err { OnErr result (self.new ≡ self.old) }
    {
        insert_number(&mut self.numbers, number)
    }

    /// Swaps two atoms in all cells, which are cells of the problem. The swap leaves the problem's bounds as they are.
    pub fn swap_atoms(&mut self, problem: &Problem, first: Atom, second: Atom)
        requires cells { AreCells problem.now self.old }
        requires kept { KeepsBounds problem.now (swap_atoms first second) }
        ensures scenario { IsScenario problem.now self.new }
        ensures image { IsImage problem.now (swap_atoms first second) self.old self.new }
    {
        swap_in_numbers(problem, self.numbers.as_mut_slice(), first, second);
    }

    /// Whether the cell of this number is there.
    pub fn has(&self, number: u32) -> bool
        ensures { IsTrue result ↔ Contains self.now number }
    {
        self.numbers.binary_search(&number).is_ok()
    }

    /// How many cells there are.
    pub fn len(&self) -> usize
        ensures { result ≡ length self.now }
    {
        self.numbers.len()
    }

    /// Whether there is no cell.
    pub fn is_empty(&self) -> bool
        ensures { IsTrue result ↔ (self.now ≡ []) }
    {
        self.numbers.is_empty()
    }

    /// The numbers of the cells, in rising order.
    pub fn numbers(&self) -> &[u32]
        ensures value { result.now ≡ self.now }
        ensures rising { AllPairs (λ m n. m < n) self.now }
    {
        self.numbers.as_slice()
    }

    /// An equal scenario.
    pub fn copy(&self, alloc: Global) -> Result<Scenario, AllocError>
        ensures { IfOk result (λ s. s ≡ self.now) }
    {
        Ok(Scenario {
            numbers: self.numbers().to_vec(alloc)?,
        })
    }
}

// Puts a number in its place among rising ones, and says whether it is new.
fn insert_number(numbers: &mut Vec<u32>, number: u32) -> Result<bool, AllocError>
    requires { AllPairs (λ m n. m < n) numbers.old.items }
    ensures rising { AllPairs (λ m n. m < n) numbers.new.items }
    ensures value { IfOk result (λ _. numbers.new.items ≡ with_cell number numbers.old.items) }
    ensures new { IfOk result (λ is_new. IsTrue is_new ↔ (Contains numbers.old.items number → ⊥)) }
    ensures err { OnErr result (numbers.new.items ≡ numbers.old.items) }
{
    match numbers.binary_search(&number) {
        Ok(_) => Ok(false),
        Err(place) => {
            numbers.insert(place, number)?;
            Ok(true)
        }
    }
}

// Puts the number of each cell's image in its place, and the numbers in rising order.
fn swap_in_numbers(problem: &Problem, numbers: &mut [u32], first: Atom, second: Atom)
    requires cells { AreCells problem.now numbers.old }
    requires rising { AllPairs (λ m n. m < n) numbers.old }
    requires kept { KeepsBounds problem.now (swap_atoms first second) }
    ensures scenario { IsScenario problem.now numbers.new }
    ensures image { IsImage problem.now (swap_atoms first second) numbers.old numbers.new }
{
    let _ = problem.relations(); // for the proof
    for place in 0..numbers.len() {
        numbers[place] = swapped_number(problem, numbers[place], first, second);
    }
    numbers.sort_unstable();
}

// The number of the cell's image, where the problem has it.
fn swapped_number(problem: &Problem, number: u32, first: Atom, second: Atom) -> u32
    requires number { number < length (cells_of problem.now) }
    requires kept { KeepsBounds problem.now (swap_atoms first second) }
    ensures { IsCellImage problem.now (swap_atoms first second) number result }
{
    match problem.swapped(number, first, second) {
        Some(image) => image,
        None => number,
    }
}
