// The problem of a number of sets of fifty atoms.
ghost use Rattle.std.specs.Prelude.{◌≡◌, ◌+◌, ◌<◌, ◌≤◌, ◌∷◌, [], All, IfOk, IfSome, IsTrue, length};
ghost use Rattle.rel_formula.specs.Renaming.{IsSymmetric};
ghost use Rattle.rel_formula.specs.View.{formula_tree};
ghost use Rattle.rel_terms.specs.Terms.{IsTranslatable};
ghost use Rattle.bench_search.specs.Sets.{IsAsked, AreFewAtoms, AreSets};

use crate::asked::asked;
use rel_formula::{Formula, Problem, Relation};
use rel_terms::terms;
use std::alloc::{AllocError, Global};
use translation::Translation;
use tuple_core::{Atom, Name, Tuple, TupleSet};

/// How many atoms there are.
pub const ATOMS: u32 = 50;

/// The translation of the problem of so many sets, from 5 to 20; `None` for other numbers.
pub fn translated(alloc: Global, sets: u32) -> Result<Option<Translation>, AllocError> {
    if sets < 5 || sets > 20 {
        return Ok(None);
    }
    let sets = sets as u8;
    let formula = asked(alloc, sets)?;
    let Some(problem) = problem_of(alloc, sets, formula)? else {
        return Ok(None);
    };
    Ok(translation_of(alloc, problem)?)
}

// The translation of a problem with one top-level signature, where it can be translated.
fn translation_of(alloc: Global, problem: Problem) -> Result<Option<Translation>, AllocError>
    requires tops { problem.tops ≡ 0 ∷ [] }
    requires symmetric { IsSymmetric problem }
{
    if !is_translatable(alloc, &problem)? {
        return Ok(None);
    }
    Ok(Some(Translation::build(alloc, problem)?))
}

// Whether a problem with one top-level signature can be translated.
fn is_translatable(alloc: Global, problem: &Problem) -> Result<bool, AllocError>
    requires { problem.now.tops ≡ 0 ∷ [] }
    ensures { IfOk result (λ is. IsTrue is → IsTranslatable problem.now) }
{
    if problem.atoms().rows().len() > 64 {
        return Ok(false);
    }
    let count = terms(alloc, problem)?;
    Ok(count.is_some())
}

// The atoms.
fn atoms(alloc: Global) -> Result<TupleSet, AllocError>
    ensures arity { IfOk result (λ s. s.arity ≡ 1) }
    ensures tops { IfOk result (λ s. All (All (λ a. a.top < 1)) s.rows) }
{
    let mut set = TupleSet::new(alloc, 1);
    for place in 0..ATOMS as u16 {
        set.insert(Tuple::single(Atom { top: 0, place }))?;
    }
    Ok(set)
}

// The relation of all atoms, and then any sets of them, so many, with names of growing length.
fn relations(alloc: Global, all: &TupleSet, sets: u8) -> Result<Vec<Relation>, AllocError>
    requires arity { all.now.arity ≡ 1 }
    requires few { sets ≤ 20 }
    ensures count { IfOk result (λ made. length made.items ≡ sets + 1) }
    ensures over { IfOk result (λ made. AreSets all.now made.items) }
{
    let _ = all.rows(); // for the proof
    let fixed = Relation {
        name: Name::of(alloc, "")?,
        lower: all.copy(alloc)?,
        upper: all.copy(alloc)?,
    };
    let mut relations = vec![in alloc; fixed]?;
    let mut name = String::new(alloc);
    for made in 0..sets {
        let _ = made; // for the proof
        name.push_str("S")?;
        relations.push(Relation {
            name: Name::of(alloc, name.as_str())?,
            lower: TupleSet::new(alloc, 1),
            upper: all.copy(alloc)?,
        })?;
    }
    Ok(relations)
}

// The problem of so many sets of the atoms.
fn problem_of(alloc: Global, sets: u8, formula: Formula) -> Result<Option<Problem>, AllocError>
    requires few { sets ≤ 20 }
    requires formula { IsAsked (sets + 1) (formula_tree formula) }
    ensures symmetric { IfOk result (λ made. IfSome made IsSymmetric) }
    ensures tops { IfOk result (λ made. IfSome made (λ p. p.tops ≡ 0 ∷ [])) }
{
    let all = atoms(alloc)?;
    if all.rows().len() > 100 {
        return Ok(None);
    }
    Ok(Some(problem_over(alloc, &all, sets, formula)?))
}

// The problem of so many sets of these atoms.
fn problem_over(
    alloc: Global,
    all: &TupleSet,
    sets: u8,
    formula: Formula,
) -> Result<Problem, AllocError>
    requires atoms { AreFewAtoms all.now }
    requires few { sets ≤ 20 }
    requires formula { IsAsked (sets + 1) (formula_tree formula) }
    ensures symmetric { IfOk result IsSymmetric }
    ensures tops { IfOk result (λ p. p.tops ≡ 0 ∷ []) }
{
    let relations = relations(alloc, all, sets)?;
    let tops = vec![in alloc; 0]?;
    Ok(Problem::of(alloc, relations, tops, formula)?)
}
