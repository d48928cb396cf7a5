// Problems: relations between bounds, their cells in order, and a formula about them.
ghost use Rattle.std.specs.Prelude.{◌≡◌, ◌≢◌, ◌↔◌, ◌<◌, ◌≤◌, [], ◌∷◌, ◌++◌, ℕ, List, map, length, slice_get, Some, All, AllPairs, Contains, IfOk, IsTrue};
ghost use Rattle.tuple_core.specs.Swap.{swap_atoms};
ghost use Rattle.tuple_core.specs.Gains.{SomeGives};
ghost use Rattle.tuple_core.specs.Rows.{IsSetOf, SetGains};
ghost use Rattle.rel_formula.specs.View.{formula_tree};
ghost use Rattle.rel_formula.specs.Bounds.{IsProblem, InAtoms, cells_of, cells_from, most_cells, open_tuples, cell_of};
ghost use Rattle.rel_formula.specs.Renaming.{IsCellImage};

use crate::formula::Formula;
use std::alloc::{AllocError, Global};
use std::marker::Model;
use tuple_core::{Atom, Name, Tuple, TupleSet};

/// A relation with the tuples that it has at least, and those that it has at most.
#[derive(Drop)]
pub struct Relation {
    pub name: Name,
    pub lower: TupleSet,
    pub upper: TupleSet,
}

impl Relation {
    /// An equal relation.
    pub fn copy(&self, alloc: Global) -> Result<Relation, AllocError>
        ensures { IfOk result (λ r. r ≡ self.now) }
    {
        let name = self.name.copy(alloc)?;
        let lower = self.lower.copy(alloc)?;
        let upper = self.upper.copy(alloc)?;
        Ok(Relation { name, lower, upper })
    }
}

/// A relation, by its number, and a tuple that it may have and need not have.
#[derive(Drop, PartialEq, Eq, PartialOrd, Ord)]
pub struct Cell {
    pub relation: u8,
    pub tuple: Tuple,
}

/// Relations between bounds, those among them that are top-level signatures, and a formula.
pub struct Problem {
    relations: Vec<Relation>,
    tops: Vec<u8>,
    formula: Formula,
    cells: Vec<Cell>,
    atoms: TupleSet,
}

// By hand, so that a caller's proof has one step wherever one is dropped.
impl Drop for Problem {
    fn drop(self) {
        let Problem {
            relations: _,
            tops: _,
            formula: _,
            cells: _,
            atoms: _,
        } = self;
    }
}

impl Model for Problem {
    ghost use Rattle.std.specs.Coded.{codes};
    ghost use Rattle.rel_formula.specs.Code.{formula_code};
    ghost use Rattle.rel_formula.specs.View.{formula_tree};
    ghost use Rattle.rel_formula.specs.Bounds.{Bounded};
    ghost use Rattle.rel_formula.specs.Kept.{IsKept};

    ghost Value = { Bounded };

    ghost coded = { Prim.hlevel (codes, formula_code) };

    ghost view = { λ p. record { relations = p.relations.items; tops = p.tops.items; formula = formula_tree p.formula } };

    ghost invariant = { λ p. IsKept (record { relations = p.relations.items; tops = p.tops.items; formula = formula_tree p.formula }) p.cells.items p.atoms };
}

impl Problem {
    /// The problem of these relations, the numbers of the top-level signatures among them, and this formula.
    pub fn of(
        alloc: Global,
        relations: Vec<Relation>,
        tops: Vec<u8>,
        formula: Formula,
    ) -> Result<Problem, AllocError>
        requires { IsProblem (record { relations = relations.items; tops = tops.items; formula = formula_tree formula }) }
        ensures { IfOk result (λ p. p ≡ record { relations = relations.items; tops = tops.items; formula = formula_tree formula }) }
    {
        let cells = all_cells(alloc, &relations)?;
        let atoms = all_atoms(alloc, &relations)?;
        Ok(Problem {
            relations,
            tops,
            formula,
            cells,
            atoms,
        })
    }

    /// The relations, in order.
    pub fn relations(&self) -> &[Relation]
        ensures value { result.now ≡ self.now.relations }
        ensures well { IsProblem self.now }
    {
        self.relations.as_slice()
    }

    /// The numbers of the relations that are top-level signatures, in rising order.
    pub fn tops(&self) -> &[u8]
        ensures { result.now ≡ self.now.tops }
    {
        self.tops.as_slice()
    }

    /// The formula.
    pub fn formula(&self) -> &Formula
        ensures { formula_tree result.now ≡ self.now.formula }
    {
        &self.formula
    }

    /// How many cells there are: at most 4,096.
    pub fn cells(&self) -> u32
        ensures value { result ≡ length (cells_of self.now) }
        ensures few { result ≤ most_cells }
    {
        self.cells.len() as u32
    }

    /// All cells, in the order of their numbers.
    pub fn all_cells(&self) -> &[Cell]
        ensures { result.now ≡ cells_of self.now }
    {
        self.cells.as_slice()
    }

    /// The atoms, as a set of tuples of one atom each.
    pub fn atoms(&self) -> &TupleSet
        ensures value { IsSetOf result.now 1 (InAtoms self.now) }
        ensures well { IsProblem self.now }
    {
        &self.atoms
    }

    /// The cell of a number, which is below `cells`.
    pub fn cell(&self, number: u32) -> Cell
        requires { number < length (cells_of self.now) }
        ensures { slice_get (cells_of self.now) number ≡ Some result }
    {
        let cell = &self.cells[number as usize];
        Cell {
            relation: cell.relation,
            tuple: cell.tuple.copy(),
        }
    }

    /// The number of a cell, and `None` where the problem has no such cell.
    pub fn number_of(&self, cell: &Cell) -> Option<u32>
        ensures { (n : ℕ) → (result ≡ Some n) ↔ (slice_get (cells_of self.now) n ≡ Some cell.now) }
    {
        match self.cells.binary_search(cell) {
            Ok(place) => Some(place as u32),
            Err(_) => None,
        }
    }

    /// The number of the cell that the swap of two atoms makes of this one, and `None` where the problem has no such cell.
    pub fn swapped(&self, number: u32, first: Atom, second: Atom) -> Option<u32>
        requires { number < length (cells_of self.now) }
        ensures { (n : ℕ) → (result ≡ Some n) ↔ IsCellImage self.now (swap_atoms first second) number n }
    {
        let cell = self.cell(number);
        let image = Cell {
            relation: cell.relation,
            tuple: cell.tuple.swapped(first, second),
        };
        self.number_of(&image)
    }

    /// An equal problem.
    pub fn copy(&self, alloc: Global) -> Result<Problem, AllocError>
        ensures { IfOk result (λ p. p ≡ self.now) }
    {
        let relations = relations_copy(alloc, self.relations())?;
        let tops = self.tops().to_vec(alloc)?;
        let formula = self.formula().copy(alloc)?;
        Ok(Problem::of(alloc, relations, tops, formula)?)
    }
}

// Equal relations.
fn relations_copy(alloc: Global, relations: &[Relation]) -> Result<Vec<Relation>, AllocError>
    ensures { IfOk result (λ copies. copies.items ≡ relations.now) }
{
    let mut copies = Vec::new(alloc);
    for relation in relations {
        copies.push(relation.copy(alloc)?)?;
    }
    Ok(copies)
}

// The cells of all relations.
fn all_cells(alloc: Global, relations: &[Relation]) -> Result<Vec<Cell>, AllocError>
    requires { length relations.now ≤ 128 }
    ensures { IfOk result (λ cells. cells.items ≡ cells_from 0 relations.now) }
{
    let mut cells = Vec::new(alloc);
    for (number, relation) in relations.iter().enumerate() {
        add_cells(&mut cells, number as u8, relation)?;
    }
    Ok(cells)
}

// Adds the cells of one relation.
fn add_cells(cells: &mut Vec<Cell>, number: u8, relation: &Relation) -> Result<(), AllocError>
    ensures { IfOk result (λ _. cells.new.items ≡ cells.old.items ++ map (cell_of number) (open_tuples relation.now)) }
{
    for tuple in relation.upper.rows() {
        if !relation.lower.contains(tuple) {
            cells.push(Cell {
                relation: number,
                tuple: tuple.copy(),
            })?;
        }
    }
    Ok(())
}

// The atoms of all upper sets.
fn all_atoms(alloc: Global, relations: &[Relation]) -> Result<TupleSet, AllocError>
    ensures { IfOk result (λ atoms. IsSetOf atoms 1 (SomeGives relations.now (λ relation. SomeGives relation.upper.rows (λ row. SomeGives row (λ a t. t ≡ a ∷ []))))) }
{
    let mut atoms = TupleSet::new(alloc, 1);
    for relation in relations {
        add_atoms(&mut atoms, relation.upper.rows())?;
    }
    Ok(atoms)
}

// Adds the atoms of these tuples.
fn add_atoms(atoms: &mut TupleSet, rows: &[Tuple]) -> Result<(), AllocError>
    requires { atoms.old.arity ≡ 1 }
    ensures { IfOk result (λ _. SetGains atoms.old atoms.new (SomeGives rows.now (λ row. SomeGives row (λ a t. t ≡ a ∷ [])))) }
{
    for row in rows {
        add_row(atoms, row.atoms())?;
    }
    Ok(())
}

// Adds the atoms of one tuple.
fn add_row(atoms: &mut TupleSet, row: &[Atom]) -> Result<(), AllocError>
    requires { atoms.old.arity ≡ 1 }
    ensures { IfOk result (λ _. SetGains atoms.old atoms.new (SomeGives row.now (λ a t. t ≡ a ∷ []))) }
{
    for atom in row {
        atoms.insert(Tuple::single(*atom))?;
    }
    Ok(())
}
