// Problems of a set of atoms and one relation, which may have each tuple of its arity over them.
ghost use Rattle.std.specs.Prelude.{◌≡◌, ◌<◌, ◌∷◌, [], All, IfOk, IfSome};
ghost use Rattle.tuple_core.specs.Rows.{IsRows};
ghost use Rattle.rel_formula.specs.Renaming.{IsSymmetric};
ghost use Rattle.rel_formula.specs.Shape.{IsProper};
ghost use Rattle.rel_formula.specs.View.{formula_tree};
ghost use Rattle.bench.specs.Powers.{IsPower, AreAtoms};

use rel_formula::{Formula, Problem, Relation};
use std::alloc::{AllocError, Global};
use tuple_core::{Atom, Name, Tuple, TupleSet};

/// The set of the atoms at the first places, at most 62 of them.
pub fn atoms(alloc: Global, count: u32) -> Result<TupleSet, AllocError>
    ensures { IfOk result AreAtoms }
{
    let mut set = TupleSet::new(alloc, 1);
    for place in 0..count.min(62) as u16 {
        set.insert(Tuple::single(Atom { top: 0, place }))?;
    }
    Ok(set)
}

/// All pairs of these atoms.
pub fn pairs(alloc: Global, atoms: &TupleSet) -> Result<TupleSet, AllocError>
    requires { AreAtoms atoms.now }
    ensures arity { IfOk result (λ s. s.arity ≡ 2) }
    ensures all { IfOk result (IsPower atoms.now) }
{
    let _ = atoms.rows(); // for the proof
    let all = atoms.product(alloc, atoms)?;
    Ok(all)
}

/// All triples of these atoms.
pub fn triples(alloc: Global, atoms: &TupleSet) -> Result<TupleSet, AllocError>
    requires { AreAtoms atoms.now }
    ensures arity { IfOk result (λ s. s.arity ≡ 3) }
    ensures all { IfOk result (IsPower atoms.now) }
{
    let _ = atoms.rows(); // for the proof
    let ends = pairs(alloc, atoms)?;
    let all = atoms.product(alloc, &ends)?;
    Ok(all)
}

/// The problem of just these atoms and a relation that may have any of these tuples; `None` where these are too many.
pub fn problem(
    alloc: Global,
    atoms: TupleSet,
    tuples: TupleSet,
    formula: Formula,
) -> Result<Option<Problem>, AllocError>
    requires atoms { AreAtoms atoms }
    requires tuples { IsPower atoms tuples }
    requires formula { IsProper (1 ∷ tuples.arity ∷ []) 0 (formula_tree formula) }
    ensures symmetric { IfOk result (λ made. IfSome made IsSymmetric) }
    ensures tops { IfOk result (λ made. IfSome made (λ p. p.tops ≡ 0 ∷ [])) }
{
    let _ = atoms.rows(); // for the proof
    let _ = tuples.rows(); // for the proof
    if atoms.len() > 62 || tuples.len() > 4034 {
        return Ok(None);
    }
    let none = TupleSet::new(alloc, tuples.arity());
    let _ = none.rows(); // for the proof
    let set = Relation {
        name: Name::of(alloc, "A")?,
        lower: atoms.copy(alloc)?,
        upper: atoms,
    };
    let relation = Relation {
        name: Name::of(alloc, "next")?,
        lower: none,
        upper: tuples,
    };
    let relations = vec![in alloc; set, relation]?;
    let tops = vec![in alloc; 0]?;
    let made = Problem::of(alloc, relations, tops, formula)?;
    Ok(Some(made))
}
