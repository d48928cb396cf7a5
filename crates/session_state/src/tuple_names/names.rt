// Names of atoms and of tuples.
ghost use Rattle.std.specs.Prelude.{◌≡◌, ◌↔◌, ◌<◌, List, map, length, All, Contains, IsTrue, MatchOption};
ghost use Rattle.tuple_core.specs.declared.atom.Atom.{Atom as AtomRecord};
ghost use Rattle.session_rules.specs.Naming.{name_of_atom};

use rel_formula::Problem;
use session_words::AtomName;
use tuple_core::{Atom, Tuple};

/// The first of these tuples whose atoms have these names.
pub(crate) fn row_named(problem: &Problem, rows: &[Tuple], names: &[AtomName]) -> Option<Tuple>
    requires { All (All (λ a. a.top < length problem.now.tops)) rows.now }
    ensures { MatchOption result ((t : List AtomRecord) → Contains rows.now t → ¬ (map (name_of_atom problem.now) t ≡ names.now)) (λ t. Contains rows.now t × (map (name_of_atom problem.now) t ≡ names.now)) }
{
    for row in rows {
        if are_names_of(problem, row.atoms(), names) {
            return Some(row.copy());
        }
    }
    None
}

// Whether these are the names of the atoms.
fn are_names_of(problem: &Problem, atoms: &[Atom], names: &[AtomName]) -> bool
    requires { All (λ a. a.top < length problem.now.tops) atoms.now }
    ensures { IsTrue result ↔ (map (name_of_atom problem.now) atoms.now ≡ names.now) }
{
    if atoms.len() != names.len() {
        return false;
    }
    for (place, atom) in atoms.iter().enumerate() {
        if !is_name_of(problem, *atom, &names[place]) {
            return false;
        }
    }
    true
}

// Whether this is the name of the atom.
fn is_name_of(problem: &Problem, atom: Atom, name: &AtomName) -> bool
    requires { atom.top < length problem.now.tops }
    ensures { IsTrue result ↔ (name_of_atom problem.now atom ≡ name.now) }
{
    let number = problem.tops()[atom.top as usize];
    let signature = &problem.relations()[number as usize];
    signature.name == name.top && atom.place as u32 == name.place
}
