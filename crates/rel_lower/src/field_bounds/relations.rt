// The relations of a problem.
ghost use Rattle.std.specs.Prelude.{◌≡◌, ◌≤◌, ◌-◌, ◌^◌, length, min, All, MatchResult};
ghost use Rattle.tuple_core.specs.Rows.{IsRows};
ghost use Rattle.rel_formula.specs.Bounds.{cells_from, open_tuples};
ghost use Rattle.rel_formula.specs.declared.problem.Relation.{Relation as RelationRecord};
ghost use Rattle.named_model.specs.Model.{FieldTree};
ghost use Rattle.named_model.specs.View.{named_view};
ghost use Rattle.rel_lower.specs.Bounding.Bounds.{AreRelations, IsTooMany};
ghost use Rattle.rel_lower.specs.Bounding.Typed.{HasLists};

use crate::field_bounds::fields::field_relation;
use crate::relation_bounds::signatures::signature_relations;
use lowering_rules::LowerFault;
use model_sizes::Size;
use model_types::bounding_types::Work;
use named_model::Named;
use rel_formula::Relation;
use std::alloc::Global;

// The most relations of a problem.
const MOST_RELATIONS: usize = 128;

// The most cells of a problem.
const MOST_CELLS: usize = 4_096;

/// The relations of a model's problem, those of signatures first; or the first of these faults: there are more than 128, or
/// they have more than 4,096 cells. No set is built of more tuples than these cells and one product of places. The lists of each
/// bound are as long as it has columns, of which there are at most two; more of them than bounding types may have are want of
/// memory. There are at most as many sizes as signatures.
pub fn relations(alloc: Global, named: &Named, sizes: &[Size]) -> Result<Vec<Relation>, LowerFault>
    requires few { length sizes.now ≤ length named.now.signatures.items }
    requires typed { All (λ (f : FieldTree). HasLists (named_view named.now).signatures f.bound) (named_view named.now).fields }
    ensures { MatchResult result (λ rs. AreRelations (named_view named.now) sizes.now rs.items) (IsTooMany (named_view named.now) sizes.now) }
{
    if named.signatures.len().saturating_add(named.fields.len()) > MOST_RELATIONS {
        return Err(LowerFault::TooManyRelations);
    }
    let mut relations = signature_relations(alloc, named, sizes)?;
    let mut cells = number_of_cells(&relations);
    if cells > MOST_CELLS {
        return Err(LowerFault::TooManyCells);
    }
    let mut work = Work::new();
    for field in &named.fields {
        let relation = field_relation(alloc, &mut work, named, sizes, field, MOST_CELLS - cells)?;
        cells += cells_of(&relation);
        relations.push(relation)?;
    }
    Ok(relations)
}

// How many cells the relations have, as far as numbers go.
fn number_of_cells(relations: &[Relation]) -> usize
    ensures count { result ≡ min (length (cells_from 0 relations.now)) (2 ^ 64 - 1) }
    ensures sets { All (λ (r : RelationRecord). IsRows r.lower × IsRows r.upper) relations.now }
{
    let mut cells = 0usize;
    for relation in relations {
        cells = cells.saturating_add(cells_of(relation));
    }
    cells
}

// How many tuples the relation may have and need not have.
fn cells_of(relation: &Relation) -> usize
    ensures count { result ≡ length (open_tuples relation.now) }
    ensures sets { IsRows relation.now.lower × IsRows relation.now.upper }
{
    let _ = relation.lower.rows(); // for the proof
    let mut cells = 0;
    for tuple in relation.upper.rows() {
        cells += usize::from(!relation.lower.contains(tuple));
    }
    cells
}
