// The lines of a scenario's relations.
ghost use Rattle.std.specs.Prelude.{◌≡◌, ◌<◌, ◌==◌, if◌then◌else◌, ◌++◌, ◌∷◌, [], ℕ, List, length, map, take, codes, All, IfOk};
ghost use Rattle.tuple_core.specs.declared.atom.Atom.{Atom as AtomRecord};
ghost use Rattle.rel_formula.specs.Bounds.{Bounded};
ghost use Rattle.script_text.specs.Lines.{atom_text, tuple_text, relation_line, separated};

use crate::numbers::push_number;
use rel_formula::{Problem, Relation};
use std::alloc::AllocError;
use tuple_core::{Atom, Tuple};

// Adds the separator, except before the first piece.
fn push_between(out: &mut Vec<u8>, place: usize, between: &[u8]) -> Result<(), AllocError>
    ensures { IfOk result (λ _. out.new.items ≡ out.old.items ++ (if place == 0 then [] else between.now)) }
{
    if place > 0 {
        out.extend_from_slice(between)?;
    }
    Ok(())
}

// Adds an atom, whose signature is one of the problem's.
fn push_atom(out: &mut Vec<u8>, problem: &Problem, atom: Atom) -> Result<(), AllocError>
    requires { atom.top < length problem.now.tops }
    ensures { IfOk result (λ _. out.new.items ≡ out.old.items ++ atom_text problem.now atom) }
{
    let relations = problem.relations();
    let top = problem.tops()[atom.top as usize];
    let relation = &relations[top as usize];
    out.extend_from_slice(relation.name.text().as_bytes())?;
    out.extend_from_slice(b"$")?;
    push_number(out, u64::from(atom.place))?;
    Ok(())
}

/// Adds a tuple. The signatures of its atoms are those of the problem.
pub fn push_tuple(out: &mut Vec<u8>, problem: &Problem, atoms: &[Atom]) -> Result<(), AllocError>
    requires { All (λ a. a.top < length problem.now.tops) atoms.now }
    ensures { IfOk result (λ _. out.new.items ≡ out.old.items ++ tuple_text problem.now atoms.now) }
{
    for (place, atom) in atoms.iter().enumerate() {
        push_between(out, place, b"->")?;
        push_atom(out, problem, *atom)?;
    }
    Ok(())
}

// Adds tuples.
fn push_rows(out: &mut Vec<u8>, problem: &Problem, rows: &[Tuple]) -> Result<(), AllocError>
    requires { All (λ t. All (λ a. a.top < length problem.now.tops) t) rows.now }
    ensures { IfOk result (λ _. out.new.items ≡ out.old.items ++ separated (codes ", ") (map (tuple_text problem.now) rows.now)) }
{
    for (place, row) in rows.iter().enumerate() {
        push_between(out, place, b", ")?;
        push_tuple(out, problem, row.atoms())?;
    }
    Ok(())
}

/// Adds the line of a relation. The signatures of the atoms are those of the problem.
pub fn push_relation(
    out: &mut Vec<u8>,
    problem: &Problem,
    relation: &Relation,
    rows: &[Tuple],
) -> Result<(), AllocError>
    requires { All (λ t. All (λ a. a.top < length problem.now.tops) t) rows.now }
    ensures { IfOk result (λ _. out.new.items ≡ out.old.items ++ relation_line problem.now relation.now.name rows.now) }
{
    out.extend_from_slice(relation.name.text().as_bytes())?;
    out.extend_from_slice(b" = {")?;
    push_rows(out, problem, rows)?;
    out.extend_from_slice(b"}\n")?;
    Ok(())
}
