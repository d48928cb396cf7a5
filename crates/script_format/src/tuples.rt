// Tuples as they are written.
ghost use Rattle.std.specs.Prelude.{◌≡◌, ◌∷◌, map, option_map, IfOk};
ghost use Rattle.script_format.specs.Tuples.{atom_of, atom_in, atom_behind, atoms_behind, tuple_of, tuple_in};

use crate::names::is_sort_name;
use crate::numbers::number_of;
use crate::words::parts_of;
use session_words::{AtomName, AtomNames};
use std::alloc::{AllocError, Global};
use tuple_core::Name;

// The atom whose signature and place these parts are.
fn atom_of(alloc: Global, parts: &[&str]) -> Result<Option<AtomName>, AllocError>
    ensures { IfOk result (λ atom. atom ≡ atom_of (map (λ part. part.now) parts.now)) }
{
    let [top, place] = parts else {
        return Ok(None);
    };
    if !is_sort_name(alloc, top)? {
        return Ok(None);
    }
    let Some(place) = number_of(place) else {
        return Ok(None);
    };
    let top = Name::of(alloc, top)?;
    Ok(Some(AtomName { top, place }))
}

// The atom that a text says: a signature's name, `$`, and one to six digits.
fn atom_in(alloc: Global, text: &str) -> Result<Option<AtomName>, AllocError>
    ensures { IfOk result (λ atom. atom ≡ atom_in text.now) }
{
    let parts = parts_of(alloc, text, '$')?;
    atom_of(alloc, &parts)
}

// The atom behind the `>` of an arrow.
fn atom_behind(alloc: Global, text: &str) -> Result<Option<AtomName>, AllocError>
    ensures { IfOk result (λ atom. atom ≡ atom_behind text.now) }
{
    match text.strip_prefix('>') {
        Some(rest) => atom_in(alloc, rest),
        None => Ok(None),
    }
}

// The atoms behind the arrows, after the first one.
fn atoms_behind(
    alloc: Global,
    first: AtomName,
    others: &[&str],
) -> Result<Option<AtomNames>, AllocError>
    ensures { IfOk result (λ names. names ≡ option_map (λ atoms. first ∷ atoms) (atoms_behind (map (λ part. part.now) others.now))) }
{
    let mut names = Vec::new(alloc);
    names.push(first)?;
    for other in others {
        let Some(atom) = atom_behind(alloc, other)? else {
            return Ok(None);
        };
        names.push(atom)?;
    }
    Ok(Some(AtomNames::of(names)))
}

fn tuple_of(alloc: Global, parts: &[&str]) -> Result<Option<AtomNames>, AllocError>
    ensures { IfOk result (λ names. names ≡ tuple_of (map (λ part. part.now) parts.now)) }
{
    let [first, others @ ..] = parts else {
        return Ok(None);
    };
    let Some(first) = atom_in(alloc, first)? else {
        return Ok(None);
    };
    atoms_behind(alloc, first, others)
}

/// The atoms that a word says, which have `->` between them.
pub fn tuple_in(alloc: Global, word: &str) -> Result<Option<AtomNames>, AllocError>
    ensures { IfOk result (λ names. names ≡ tuple_in word.now) }
{
    let parts = parts_of(alloc, word, '-')?;
    tuple_of(alloc, &parts)
}
