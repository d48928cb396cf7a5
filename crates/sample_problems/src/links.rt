// Problems of a set of atoms and arrows among them.
ghost use Rattle.std.specs.Prelude.{◌≡◌, ◌∷◌, [], IfOk};
ghost use Rattle.rel_formula.specs.Bounds.{IsRelation};
ghost use Rattle.rel_formula.specs.Shape.{IsProper};
ghost use Rattle.rel_formula.specs.View.{formula_tree};

use crate::failure::{not_between, too_large};
use crate::places::{atoms, pairs};
use rel_formula::{Formula, Problem, Relation};
use std::alloc::Global;
use std::test::Fail;
use tuple_core::{Name, TupleSet};

/// A set A with at least and at most these atoms, any arrows `next` among them, and a formula about both. It fails where a
/// fixed atom isn't there, or there are more than 64 atoms.
pub fn arrows(
    alloc: Global,
    fixed: &[u16],
    places: &[u16],
    formula: Formula,
) -> Result<Problem, Fail>
    requires { IsProper (1 ∷ 2 ∷ []) 0 (formula_tree formula) }
    ensures { IfOk result (λ p. p.tops ≡ 0 ∷ []) }
{
    let lower = atoms(alloc, fixed)?;
    let upper = atoms(alloc, places)?;
    let set = between(alloc, "A", lower, upper)?;
    let all = pairs(alloc, places)?;
    let relation = between(alloc, "next", TupleSet::new(alloc, 2), all)?;
    if set.upper.len() > 64 {
        return Err(too_large());
    }
    if relation.upper.len() > 4032 {
        return Err(too_large());
    }
    let relations = vec![in alloc; set, relation]?;
    let tops = vec![in alloc; 0]?;
    let problem = Problem::of(alloc, relations, tops, formula)?;
    Ok(problem)
}

// The relation with this name and these bounds. It fails where the lower one isn't in the upper one.
fn between(alloc: Global, name: &str, lower: TupleSet, upper: TupleSet) -> Result<Relation, Fail>
    requires { upper.arity ≡ lower.arity }
    ensures name { IfOk result (λ r. r.name ≡ name.now) }
    ensures lower { IfOk result (λ r. r.lower ≡ lower) }
    ensures upper { IfOk result (λ r. r.upper ≡ upper) }
    ensures relation { IfOk result IsRelation }
{
    if !lower.is_subset(&upper) {
        return Err(not_between());
    }
    if lower.rows().len() > upper.rows().len() {
        return Err(not_between());
    }
    let name = Name::of(alloc, name)?;
    Ok(Relation { name, lower, upper })
}
