// Cells that renamings take to each other.
ghost use Rattle.std.specs.Prelude.{◌≡◌, ◌↔◌, ◌<◌, true, false, ℕ, List, map, length, slice_get, slice_index_or, Some, Option, Contains, IfOk, IsTrue};
ghost use Rattle.tuple_core.specs.declared.atom.Atom.{Atom as AtomRecord};
ghost use Rattle.rel_formula.specs.Bounds.{cell_of, cells_of};
ghost use Rattle.rel_formula.specs.Renaming.{IsSymmetric};
ghost use Rattle.renaming_classes.specs.Keeping.{NoneKeeping};
ghost use Rattle.renaming_classes.specs.Orbits.{stand_in, first_of, AreOrbits};

use rel_formula::{Cell, Problem, Scenario};
use std::alloc::{AllocError, Global};
use std::marker::Model;
use tuple_core::{Atom, Tuple};

/// For each cell of a problem the number of one that stands for it, where there is one: the same one for all cells that certain
/// renamings take to each other.
#[derive(Drop)]
pub(crate) struct Orbits {
    leaders: Vec<Option<u32>>,
}

impl Model for Orbits {
    ghost use Rattle.std.specs.Prelude.{ℕ, List, Option};

    ghost Value = { List (Option ℕ) };

    ghost view = { λ o. o.leaders.items };
}

impl Orbits {
    /// What the renamings that keep the first ones of a problem's atoms take to each other.
    pub(crate) fn of(
        alloc: Global,
        problem: &Problem,
        kept: &[Atom],
        others: &[Atom],
    ) -> Result<Orbits, AllocError>
        ensures { IfOk result (AreOrbits problem.now kept.now) }
    {
        let mut leaders = Vec::new(alloc);
        for cell in problem.all_cells() {
            leaders.push(leader(alloc, problem, cell, kept, others)?)?;
        }
        Ok(Orbits { leaders })
    }

    /// What stands for the cell of this number.
    fn leader(&self, number: u32) -> Option<u32>
        ensures { (c : ℕ) → (result ≡ Some c) ↔ (slice_get self.now number ≡ Some (Some c)) }
    {
        match self.leaders.get(number as usize) {
            Some(leader) => *leader,
            None => None,
        }
    }

    /// For each number whether it stands for cells of which the scenario has some and lacks some.
    pub(crate) fn mixed(
        &self,
        alloc: Global,
        problem: &Problem,
        scenario: &Scenario,
    ) -> Result<Vec<bool>, AllocError>
        ensures { IfOk result (λ mixed. (n c : ℕ) → n < length (cells_of problem.now) → slice_get self.now n ≡ Some (Some c) → slice_index_or mixed.items c true ≡ false → Contains scenario.now n ↔ Contains scenario.now c) }
    {
        let mut mixed = vec![in alloc; false; problem.cells() as usize]?;
        for number in 0..problem.cells() {
            compare(&mut mixed, scenario, number, self.leader(number));
        }
        Ok(mixed)
    }

    /// Whether no renaming of the scenario, of those that take only such cells to each other, is earlier than the best one, as
    /// far as cells tell that are there in all these renamings or in none.
    pub(crate) fn rules_out(
        &self,
        alloc: Global,
        problem: &Problem,
        scenario: &Scenario,
        best: &Scenario,
    ) -> Result<bool, AllocError>
        requires symmetric { IsSymmetric problem.now }
        ensures { IfOk result (λ out. IsTrue out → (kept : List AtomRecord) → AreOrbits problem.now kept self.now → NoneKeeping problem.now kept scenario.now best.now) }
    {
        let _ = problem.relations(); // for the proof
        let mixed = self.mixed(alloc, problem, scenario)?;
        for number in 0..problem.cells() {
            if !is_decided(&mixed, self.leader(number)) {
                return Ok(false);
            }
            let here = scenario.has(number);
            if here != best.has(number) {
                return Ok(!here);
            }
        }
        Ok(true)
    }
}

// Whether something stands for the cell that isn't marked.
fn is_decided(mixed: &[bool], leader: Option<u32>) -> bool
    ensures { IsTrue result → (c : ℕ) × (leader ≡ Some c) × (slice_index_or mixed.now c true ≡ false) }
{
    match leader {
        Some(leader) => (leader as usize) < mixed.len() && !mixed[leader as usize],
        None => false,
    }
}

// What stands for a cell: the cell in which each atom that isn't kept gives way to the first such of its signature, if there is one.
fn leader(
    alloc: Global,
    problem: &Problem,
    cell: &Cell,
    kept: &[Atom],
    others: &[Atom],
) -> Result<Option<u32>, AllocError>
    ensures { IfOk result (λ leader. (c : ℕ) → (leader ≡ Some c) ↔ (slice_get (cells_of problem.now) c ≡ Some (cell_of cell.now.relation (map (stand_in kept.now others.now) cell.now.tuple)))) }
{
    let mut atoms = Vec::new(alloc);
    for atom in cell.tuple.atoms() {
        atoms.push(stand_in(kept, others, *atom))?;
    }
    let leader = Cell {
        relation: cell.relation,
        tuple: Tuple::of(&atoms),
    };
    Ok(problem.number_of(&leader))
}

// A kept atom for itself, and for any other one the first of its signature that isn't kept.
fn stand_in(kept: &[Atom], others: &[Atom], atom: Atom) -> Atom
    ensures { result ≡ stand_in kept.now others.now atom }
{
    if kept.contains(&atom) {
        atom
    } else {
        first_of(others, atom.top)
    }
}

// The first of these atoms that is of the signature.
fn first_of(atoms: &[Atom], top: u16) -> Atom
    ensures { result ≡ first_of atoms.now top }
{
    for atom in atoms {
        if atom.top == top {
            return *atom;
        }
    }
    Atom { top, place: 0 }
}

// Marks what stands for the cell, where the scenario has only one of the two.
fn compare(mixed: &mut Vec<bool>, scenario: &Scenario, number: u32, leader: Option<u32>)
    ensures stays { (c : ℕ) → slice_index_or mixed.old.items c true ≡ true → slice_index_or mixed.new.items c true ≡ true }
    ensures marked { (c : ℕ) → leader ≡ Some c → slice_index_or mixed.new.items c true ≡ false → Contains scenario.now number ↔ Contains scenario.now c }
{
    match leader {
        Some(leader) => mark_if(mixed, leader, scenario.has(number) != scenario.has(leader)),
        None => (),
    }
}

// Marks the number, if it is in range and is to be marked.
fn mark_if(mixed: &mut Vec<bool>, number: u32, marks: bool)
    ensures stays { (c : ℕ) → slice_index_or mixed.old.items c true ≡ true → slice_index_or mixed.new.items c true ≡ true }
    ensures marked { marks ≡ true → slice_index_or mixed.new.items number true ≡ true }
{
    if marks && (number as usize) < mixed.len() {
        mixed[number as usize] = true;
    }
}
