// Problems of sets of atoms.
ghost use Rattle.std.specs.Prelude.{◌≡◌, ◌<◌, ◌≤◌, ◌∷◌, [], length, All, IfOk};
ghost use Rattle.tuple_core.specs.Rows.{IsRows};
ghost use Rattle.rel_formula.specs.Bounds.{IsProblem};
ghost use Rattle.rel_formula.specs.Kernel.{at_least, rel};
ghost use Rattle.rel_formula.specs.Renaming.{IsSymmetric};
ghost use Rattle.rel_formula.specs.Shape.{IsProper};
ghost use Rattle.rel_formula.specs.View.{formula_tree};

use crate::failure::{not_between, too_large};
use crate::places::atoms;
use rel_formula::{Expression, Formula, Problem, Relation};
use std::alloc::{AllocError, Global};
use std::test::Fail;
use tuple_core::{Name, TupleSet};

/// Any set A of the atoms at these places, and a formula about it. It fails where there are more than 4,096 of them.
pub fn set_of(alloc: Global, places: &[u16], formula: Formula) -> Result<Problem, Fail>
    requires { IsProper (1 ∷ []) 0 (formula_tree formula) }
    ensures symmetric { IfOk result IsSymmetric }
    ensures tops { IfOk result (λ p. p.tops ≡ 0 ∷ []) }
{
    let all = atoms(alloc, places)?;
    if all.rows().len() > 4096 {
        return Err(too_large());
    }
    let set = Relation {
        name: Name::of(alloc, "A")?,
        lower: TupleSet::new(alloc, 1),
        upper: all.copy(alloc)?,
    };
    let relations = vec![in alloc; set]?;
    let tops = vec![in alloc; 0]?;
    let problem = Problem::of(alloc, relations, tops, formula)?;
    Ok(problem)
}

/// A set A of atoms between these bounds, and a formula about it. It fails where the lower bound isn't in the upper one, or
/// that has more than 4,096 atoms.
pub fn set_between(
    alloc: Global,
    lower: &[u16],
    upper: &[u16],
    formula: Formula,
) -> Result<Problem, Fail>
    requires { IsProper (1 ∷ []) 0 (formula_tree formula) }
{
    let lower = atoms(alloc, lower)?;
    let upper = atoms(alloc, upper)?;
    if !lower.is_subset(&upper) {
        return Err(not_between());
    }
    if lower.rows().len() > upper.rows().len() {
        return Err(not_between());
    }
    if upper.len() > 4096 {
        return Err(too_large());
    }
    let name = Name::of(alloc, "A")?;
    let relations = vec![in alloc; Relation { name, lower, upper }]?;
    let tops = vec![in alloc; 0]?;
    let problem = Problem::of(alloc, relations, tops, formula)?;
    Ok(problem)
}

/// `sig A {} sig P in A {} sig Q in A {} run { some Q }`, where A has the atoms at these places. It fails where there are more
/// than 1,024 of them.
pub fn two_sets_of(alloc: Global, places: &[u16]) -> Result<Problem, Fail>
    ensures symmetric { IfOk result IsSymmetric }
    ensures tops { IfOk result (λ p. p.tops ≡ 0 ∷ []) }
{
    let all = atoms(alloc, places)?;
    if all.rows().len() > 1024 {
        return Err(too_large());
    }
    let relations = two_sets(alloc, &all)?;
    let tops = vec![in alloc; 0]?;
    let some = Formula::AtLeast(1, Expression::Rel(2));
    let problem = Problem::of(alloc, relations, tops, some)?;
    Ok(problem)
}

// A with all these atoms, and the sets P and Q of them.
fn two_sets(alloc: Global, all: &TupleSet) -> Result<Vec<Relation>, AllocError>
    requires rows { IsRows all.now }
    requires arity { all.now.arity ≡ 1 }
    requires tops { All (All (λ a. a.top < 1)) all.now.rows }
    requires few { length all.now.rows ≤ 1024 }
    ensures problem { IfOk result (λ rs. IsProblem (record { relations = rs.items; tops = 0 ∷ []; formula = at_least 1 (rel 2) })) }
    ensures symmetric { IfOk result (λ rs. IsSymmetric (record { relations = rs.items; tops = 0 ∷ []; formula = at_least 1 (rel 2) })) }
{
    let fixed = whole(alloc, "A", all)?;
    let first = any_of(alloc, "P", all)?;
    let second = any_of(alloc, "Q", all)?;
    let relations = vec![in alloc; fixed, first, second]?;
    Ok(relations)
}

// The relation with this name and all these atoms.
fn whole(alloc: Global, name: &str, all: &TupleSet) -> Result<Relation, AllocError>
    ensures name { IfOk result (λ r. r.name ≡ name.now) }
    ensures lower { IfOk result (λ r. r.lower ≡ all.now) }
    ensures upper { IfOk result (λ r. r.upper ≡ all.now) }
{
    let name = Name::of(alloc, name)?;
    let lower = all.copy(alloc)?;
    let upper = all.copy(alloc)?;
    Ok(Relation { name, lower, upper })
}

// The relation with this name and any of these atoms.
fn any_of(alloc: Global, name: &str, all: &TupleSet) -> Result<Relation, AllocError>
    ensures name { IfOk result (λ r. r.name ≡ name.now) }
    ensures arity { IfOk result (λ r. r.lower.arity ≡ 1) }
    ensures lower { IfOk result (λ r. r.lower.rows ≡ []) }
    ensures upper { IfOk result (λ r. r.upper ≡ all.now) }
{
    let name = Name::of(alloc, name)?;
    let lower = TupleSet::new(alloc, 1);
    let upper = all.copy(alloc)?;
    Ok(Relation { name, lower, upper })
}
