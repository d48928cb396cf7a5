// What names stand for.
ghost use Rattle.std.specs.Prelude.{◌≡◌, ◌<◌, List, map, length, slice_index_or, All, Contains, MatchOption};
ghost use Rattle.tuple_core.specs.declared.atom.Atom.{Atom};
ghost use Rattle.session_rules.specs.Naming.{name_of_atom, IsNamed, NamesTuple};
ghost use Rattle.session_state.specs.Tuples.Named.{IsWhatIsNamed};

use crate::tuple_names::names::row_named;
use rel_formula::{Cell, Problem, Relation};
use session_words::AtomName;
use tuple_core::{Name, Tuple};

/// What the names of a relation and of atoms stand for.
#[derive(Drop)]
pub enum Named {
    /// No tuple that the relation may have.
    Nothing,
    /// A tuple that the relation has in every scenario.
    Always,
    /// The cell of this number.
    Cell(u32),
}

/// What the names of a relation and of atoms stand for in a problem.
pub fn what_is_named(problem: &Problem, relation: &Name, names: &[AtomName]) -> Named
    ensures { IsWhatIsNamed problem.now relation.now names.now result }
{
    match tuple_named(problem, relation, names) {
        None => Named::Nothing,
        Some(cell) => match problem.number_of(&cell) {
            None => Named::Always,
            Some(number) => Named::Cell(number),
        },
    }
}

// The relation of this name and the tuple of its upper set whose atoms have these names.
fn tuple_named(problem: &Problem, relation: &Name, names: &[AtomName]) -> Option<Cell>
    ensures { MatchOption result (¬ IsNamed problem.now relation.now names.now) (λ cell. NamesTuple problem.now relation.now names.now cell.relation cell.tuple) }
{
    for (number, candidate) in problem.relations().iter().enumerate() {
        if let Some(tuple) = tuple_in(problem, candidate, relation, names) {
            let relation = number as u8;
            return Some(Cell { relation, tuple });
        }
    }
    None
}

// The tuple of the relation's upper set whose atoms have these names, where the relation has this name.
fn tuple_in(
    problem: &Problem,
    candidate: &Relation,
    relation: &Name,
    names: &[AtomName],
) -> Option<Tuple>
    requires { All (All (λ a. a.top < length problem.now.tops)) candidate.now.upper.rows }
    ensures { MatchOption result (candidate.now.name ≡ relation.now → (t : List Atom) → Contains candidate.now.upper.rows t → ¬ (map (name_of_atom problem.now) t ≡ names.now)) (λ t. (candidate.now.name ≡ relation.now) × Contains candidate.now.upper.rows t × (map (name_of_atom problem.now) t ≡ names.now)) }
{
    if candidate.name != *relation {
        return None;
    }
    row_named(problem, candidate.upper.rows(), names)
}
