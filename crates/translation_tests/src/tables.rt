// Problems of four relations that have just the tuples that are told here, two sets of atoms and two of pairs, over three atoms,
// and of a fifth one, to compare with.
ghost use Rattle.std.specs.Prelude.{◌≡◌, ◌∷◌, [], All, IfOk};
ghost use Rattle.rel_formula.specs.Shape.{IsWellFormed, IsProper, arity_of};
ghost use Rattle.rel_formula.specs.View.{expression_tree, formula_tree};
ghost use Rattle.translation_tests.specs.Tables.{IsTable, AreTables};

use rel_formula::{Comparison, Expression, Formula, Problem, Relation, Scenario, holds};
use sample_problems::{at, atoms};
use std::alloc::{AllocError, Global};
use std::test::Fail;
use tuple_core::{Name, Tuple, TupleSet};

// The set of these pairs of places.
fn pairs(alloc: Global, places: &[[u16; 2]]) -> Result<TupleSet, AllocError>
    ensures arity { IfOk result (λ s. s.arity ≡ 2) }
    ensures first { IfOk result (λ s. All (All (λ a. a.top ≡ 0)) s.rows) }
{
    let mut set = TupleSet::new(alloc, 2);
    for pair in places {
        let first = at(pair[0]);
        let second = at(pair[1]);
        set.insert(Tuple::of(&[first, second]))?;
    }
    Ok(set)
}

// The relation that has just these tuples. It fails where there are more than 16.
fn table(alloc: Global, name: &str, set: TupleSet) -> Result<Relation, Fail>
    requires { All (All (λ a. a.top ≡ 0)) set.rows }
    ensures { IfOk result (λ r. IsTable name.now set.arity r) }
{
    if set.rows().len() > 16 {
        return Err(Fail::new("a table that is too large"));
    }
    let name = Name::of(alloc, name)?;
    let lower = set.copy(alloc)?;
    Ok(Relation {
        name,
        lower,
        upper: set,
    })
}

fn table_of_atoms(alloc: Global, name: &str, places: &[u16]) -> Result<Relation, Fail>
    ensures { IfOk result (λ r. IsTable name.now 1 r) }
{
    let set = atoms(alloc, places)?;
    table(alloc, name, set)
}

fn table_of_pairs(alloc: Global, name: &str, places: &[[u16; 2]]) -> Result<Relation, Fail>
    ensures { IfOk result (λ r. IsTable name.now 2 r) }
{
    let set = pairs(alloc, places)?;
    table(alloc, name, set)
}

// The relations, of which the last one is called X.
fn relations(alloc: Global, compared: Relation) -> Result<Vec<Relation>, Fail>
    requires { IsTable (88 ∷ []) compared.lower.arity compared }
    ensures { IfOk result (λ rs. AreTables compared.lower.arity rs.items) }
{
    let first = table_of_atoms(alloc, "A", &[0, 1])?;
    let second = table_of_atoms(alloc, "B", &[1, 2])?;
    let third = table_of_pairs(alloc, "R", &[[0, 1], [1, 2]])?;
    let fourth = table_of_pairs(alloc, "S", &[[1, 0], [1, 1]])?;
    let relations = vec![in alloc; first, second, third, fourth, compared]?;
    Ok(relations)
}

// The number of the relation to compare with.
pub const COMPARED: u8 = 4;

// Whether a copy of the formula is true of these relations.
fn is_true(alloc: Global, compared: Relation, formula: Formula) -> Result<bool, Fail>
    requires compared { IsTable (88 ∷ []) compared.lower.arity compared }
    requires formula { IsProper (1 ∷ 1 ∷ 2 ∷ 2 ∷ compared.lower.arity ∷ []) 0 (formula_tree formula) }
{
    let relations = relations(alloc, compared)?;
    let tops = vec![in alloc; 0, 1]?;
    let copied = formula.copy(alloc)?;
    let problem = Problem::of(alloc, relations, tops, copied)?;
    let scenario = Scenario::new(alloc);
    Ok(holds(alloc, &problem, &scenario)?)
}

// Whether the formula is true where the relation to compare with has the atoms at these places.
pub fn holds_beside_atoms(alloc: Global, places: &[u16], formula: Formula) -> Result<bool, Fail>
    requires { IsProper (1 ∷ 1 ∷ 2 ∷ 2 ∷ 1 ∷ []) 0 (formula_tree formula) }
{
    let compared = table_of_atoms(alloc, "X", places)?;
    is_true(alloc, compared, formula)
}

// Whether the formula is true where the relation to compare with has these pairs of places.
pub fn holds_beside_pairs(
    alloc: Global,
    places: &[[u16; 2]],
    formula: Formula,
) -> Result<bool, Fail>
    requires { IsProper (1 ∷ 1 ∷ 2 ∷ 2 ∷ 2 ∷ []) 0 (formula_tree formula) }
{
    let compared = table_of_pairs(alloc, "X", places)?;
    is_true(alloc, compared, formula)
}

// Whether the formula is true.
pub fn truth_of(alloc: Global, formula: Formula) -> Result<bool, Fail>
    requires { IsProper (1 ∷ 1 ∷ 2 ∷ 2 ∷ 1 ∷ []) 0 (formula_tree formula) }
{
    holds_beside_atoms(alloc, &[], formula)
}

// Whether the value of an expression is the set of the atoms at these places.
pub fn gives_atoms(alloc: Global, e: Expression, places: &[u16]) -> Result<bool, Fail>
    requires well { IsWellFormed (1 ∷ 1 ∷ 2 ∷ 2 ∷ 1 ∷ []) 0 (expression_tree e) }
    requires arity { arity_of (1 ∷ 1 ∷ 2 ∷ 2 ∷ 1 ∷ []) (expression_tree e) ≡ 1 }
{
    holds_beside_atoms(
        alloc,
        places,
        Formula::Compared(Comparison::Equal, e, Expression::Rel(COMPARED)),
    )
}

// Whether the value of an expression is the set of these pairs of places.
pub fn gives_pairs(alloc: Global, e: Expression, places: &[[u16; 2]]) -> Result<bool, Fail>
    requires well { IsWellFormed (1 ∷ 1 ∷ 2 ∷ 2 ∷ 2 ∷ []) 0 (expression_tree e) }
    requires arity { arity_of (1 ∷ 1 ∷ 2 ∷ 2 ∷ 2 ∷ []) (expression_tree e) ≡ 2 }
{
    holds_beside_pairs(
        alloc,
        places,
        Formula::Compared(Comparison::Equal, e, Expression::Rel(COMPARED)),
    )
}
