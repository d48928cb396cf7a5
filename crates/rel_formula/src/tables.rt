// The relations' values in a scenario, as sets of tuples.
ghost use Rattle.std.specs.Prelude.{◌≡◌, ◌<◌, ℕ, All, List, length, IfOk, Contains, slice_index_or};
ghost use Rattle.tuple_core.specs.Rows.{Rows, IsSetOf};
ghost use Rattle.rel_formula.specs.Bounds.{IsProblem, relation_at};
ghost use Rattle.rel_formula.specs.Instance.{InRelation, InSome, AreCells};
ghost use Rattle.rel_formula.specs.Tables.{AreTables, AreTablesOf, values_of};

use crate::problem::{Problem, Relation};
use crate::scenario::Scenario;
use std::alloc::{AllocError, Global};
use std::marker::Model;
use tuple_core::TupleSet;

/// The value of each relation, and that of the top-level signatures together, which is a set of atoms.
#[derive(Drop)]
pub struct Tables {
    values: Vec<TupleSet>,
    universe: TupleSet,
}

impl Model for Tables {
    ghost use Rattle.std.specs.Prelude.{◌≡◌};
    ghost use Rattle.rel_formula.specs.Tables.{Tabled};

    ghost Value = { Tabled };

    ghost view = { λ t. record { values = t.values.items; universe = t.universe } };

    ghost invariant = { λ t. t.universe.arity ≡ 1 };
}

impl Tables {
    /// These values, by the numbers of the relations, and this set of atoms.
    pub fn new(values: Vec<TupleSet>, universe: TupleSet) -> Tables
        requires { universe.arity ≡ 1 }
        ensures { result ≡ record { values = values.items; universe = universe } }
    {
        Tables { values, universe }
    }

    /// The values in a scenario, whose numbers are those of cells of the problem.
    pub fn of(alloc: Global, problem: &Problem, scenario: &Scenario) -> Result<Tables, AllocError>
        requires { AreCells problem.now scenario.now }
        ensures { IfOk result (λ tables. AreTablesOf problem.now scenario.now tables) }
    {
        let values = all_tables(alloc, problem, scenario)?;
        let universe = universe(alloc, &values, problem.tops())?;
        Ok(Tables { values, universe })
    }

    /// The value of each relation, by its number.
    pub fn values(&self) -> &[TupleSet]
        ensures { result.now ≡ self.now.values }
    {
        self.values.as_slice()
    }

    /// The value of the top-level signatures together.
    pub fn universe(&self) -> &TupleSet
        ensures value { result.now ≡ self.now.universe }
        ensures unary { result.now.arity ≡ 1 }
    {
        &self.universe
    }
}

// The value of each relation in a scenario, by its number.
fn all_tables(
    alloc: Global,
    problem: &Problem,
    scenario: &Scenario,
) -> Result<Vec<TupleSet>, AllocError>
    requires { AreCells problem.now scenario.now }
    ensures tables { IfOk result (λ tables. AreTables problem.now scenario.now tables.items) }
    ensures well { IsProblem problem.now }
{
    let mut tables = Vec::new(alloc);
    for (number, relation) in problem.relations().iter().enumerate() {
        tables.push(table(alloc, problem, scenario, relation, number)?)?;
    }
    Ok(tables)
}

// The value of one relation.
fn table(
    alloc: Global,
    problem: &Problem,
    scenario: &Scenario,
    relation: &Relation,
    number: usize,
) -> Result<TupleSet, AllocError>
    requires cells { AreCells problem.now scenario.now }
    requires well { IsProblem problem.now }
    requires relation { relation.now ≡ relation_at problem.now.relations number }
    ensures { IfOk result (λ v. IsSetOf v relation.now.lower.arity (InRelation problem.now (Contains scenario.now) number)) }
{
    let mut set = relation.lower.copy(alloc)?;
    for chosen in scenario.numbers() {
        let cell = problem.cell(*chosen);
        if cell.relation as usize == number {
            set.insert(cell.tuple)?;
        }
    }
    Ok(set)
}

// The union of the tables of these numbers, which are those of unary relations.
fn universe(alloc: Global, tables: &[TupleSet], tops: &[u8]) -> Result<TupleSet, AllocError>
    requires there { All (λ r. r < length tables.now) tops.now }
    requires unary { (r : ℕ) (d : Rows) → Contains tops.now r → (slice_index_or tables.now r d).arity ≡ 1 }
    ensures { IfOk result (λ v. IsSetOf v 1 (InSome tops.now (values_of tables.now))) }
{
    let mut universe = TupleSet::new(alloc, 1);
    for top in tops {
        universe = universe.union(alloc, &tables[*top as usize])?;
    }
    Ok(universe)
}
