// Problems of two sets of the same atoms.
ghost use Rattle.std.specs.Prelude.{◌≡◌, ◌∷◌, [], IfOk};
ghost use Rattle.rel_formula.specs.Renaming.{IsSymmetric};
ghost use Rattle.rel_formula.specs.Shape.{IsProper};
ghost use Rattle.rel_formula.specs.View.{formula_tree};
ghost use Rattle.solver_tests.specs.Sets.{IsSet, AreTwoSets};

use crate::formulas::formula;
use rel_formula::{Formula, Problem, Relation};
use sample_problems::atoms;
use samples::sample_translations::translation_of;
use std::alloc::{AllocError, Global};
use std::test::Fail;
use translation::Translation;
use tuple_core::{Name, TupleSet};

// The relation of this name that may have any of the atoms.
fn any_among(alloc: Global, name: &str, all: &TupleSet) -> Result<Relation, AllocError>
    ensures { IfOk result (IsSet all.now name.now) }
{
    Ok(Relation {
        name: Name::of(alloc, name)?,
        lower: TupleSet::new(alloc, 1),
        upper: all.copy(alloc)?,
    })
}

// The relation of this name that has all of the atoms.
fn whole_of(alloc: Global, name: &str, all: &TupleSet) -> Result<Relation, AllocError>
    requires { all.now.arity ≡ 1 }
    ensures { IfOk result (IsSet all.now name.now) }
{
    Ok(Relation {
        name: Name::of(alloc, name)?,
        lower: all.copy(alloc)?,
        upper: all.copy(alloc)?,
    })
}

// The first of these two, or the second.
fn set_among(alloc: Global, name: &str, all: &TupleSet, any: bool) -> Result<Relation, AllocError>
    requires { all.now.arity ≡ 1 }
    ensures { IfOk result (IsSet all.now name.now) }
{
    if any {
        return Ok(any_among(alloc, name, all)?);
    }
    Ok(whole_of(alloc, name, all)?)
}

// Any set A of the atoms, beside the set B: any of them too where `both`, else all of them.
fn two_sets(alloc: Global, all: &TupleSet, both: bool) -> Result<Vec<Relation>, AllocError>
    requires { all.now.arity ≡ 1 }
    ensures { IfOk result (λ rs. AreTwoSets all.now rs.items) }
{
    let first = set_among(alloc, "A", all, true)?;
    let second = set_among(alloc, "B", all, both)?;
    let relations = vec![in alloc; first, second]?;
    Ok(relations)
}

// The problem of these sets of the atoms at the places, with a formula about them.
fn sets_of(alloc: Global, places: &[u16], both: bool, formula: Formula) -> Result<Problem, Fail>
    requires { IsProper (1 ∷ 1 ∷ []) 0 (formula_tree formula) }
    ensures symmetric { IfOk result IsSymmetric }
    ensures tops { IfOk result (λ p. p.tops ≡ 0 ∷ []) }
{
    let all = atoms(alloc, places)?;
    if all.rows().len() > 1024 {
        return Err(Fail::new("too many atoms"));
    }
    let relations = two_sets(alloc, &all, both)?;
    let tops = vec![in alloc; 0]?;
    let problem = Problem::of(alloc, relations, tops, formula)?;
    Ok(problem)
}

// The translation of the problem of the sets with the formula of this number.
pub fn translated(
    alloc: Global,
    places: &[u16],
    both: bool,
    number: u32,
) -> Result<Translation, Fail> {
    let asked = formula(alloc, number)?;
    let problem = sets_of(alloc, places, both, asked)?;
    translation_of(alloc, problem)
}
