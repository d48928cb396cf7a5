// Problems of a set of atoms and arrows.
ghost use Rattle.std.specs.Prelude.{◌≡◌, ◌⊎◌, ◌∷◌, [], IfOk};
ghost use Rattle.rel_formula.specs.Renaming.{IsSymmetric};
ghost use Rattle.rel_formula.specs.Shape.{IsProper};
ghost use Rattle.rel_formula.specs.View.{formula_tree};

use crate::sample_links::failure::too_large;
use rel_formula::{Formula, Problem, Relation};
use sample_problems::atoms;
use std::alloc::{AllocError, Global};
use std::test::Fail;
use tuple_core::{Name, TupleSet};

/// A set A of the atoms at these places, all of them where `whole` and any else; any arrows `next` among the atoms; and a
/// formula about both. It fails where there are more than 62 atoms.
pub fn links(alloc: Global, places: &[u16], whole: bool, formula: Formula) -> Result<Problem, Fail>
    requires { IsProper (1 ∷ 2 ∷ []) 0 (formula_tree formula) }
    ensures symmetric { IfOk result IsSymmetric }
    ensures tops { IfOk result (λ p. p.tops ≡ 0 ∷ []) }
{
    let all = atoms(alloc, places)?;
    let fixed = none_or_all(alloc, &all, !whole)?;
    let none = TupleSet::new(alloc, 2);
    let pairs = all.product(alloc, &all)?;
    let _ = all.rows(); // for the proof
    let _ = fixed.rows(); // for the proof
    let _ = none.rows(); // for the proof
    let _ = pairs.rows(); // for the proof
    if all.len() > 62 || pairs.len() > 4034 {
        return Err(too_large());
    }
    let set = Relation {
        name: Name::of(alloc, "A")?,
        lower: fixed,
        upper: all,
    };
    let relation = Relation {
        name: Name::of(alloc, "next")?,
        lower: none,
        upper: pairs,
    };
    let relations = vec![in alloc; set, relation]?;
    let tops = vec![in alloc; 0]?;
    let problem = Problem::of(alloc, relations, tops, formula)?;
    Ok(problem)
}

// None of these atoms, or all.
fn none_or_all(alloc: Global, all: &TupleSet, none: bool) -> Result<TupleSet, AllocError>
    ensures { IfOk result (λ s. (s ≡ all.now) ⊎ ((s.arity ≡ 1) × (s.rows ≡ []))) }
{
    if none {
        return Ok(TupleSet::new(alloc, 1));
    }
    Ok(all.copy(alloc)?)
}
