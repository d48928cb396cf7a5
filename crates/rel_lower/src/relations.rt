// The relations of a problem: that their names differ, and which are top-level signatures.
ghost use Rattle.std.specs.Prelude.{◌≡◌, ◌≢◌, All, AllPairs, IfOk, OnErr, IsFalse, IsTrue};
ghost use Rattle.named_model.specs.Signatures.{tops};

use model_types::part_sorts::tables::top_signatures;
use named_model::Named;
use rel_formula::Relation;
use std::alloc::{AllocError, Global};
use tuple_core::Name;

/// These relations. Where two of them have one name, it answers want of memory: no model that was read has such names, since a
/// name has no dot.
pub fn differing(relations: Vec<Relation>) -> Result<Vec<Relation>, AllocError>
    ensures ok { IfOk result (λ same. (same.items ≡ relations.items) × AllPairs (λ r s. r.name ≢ s.name) same.items) }
    ensures err { OnErr result (¬ AllPairs (λ r s. r.name ≢ s.name) relations.items) }
{
    if names_differ(&relations) {
        Ok(relations)
    } else {
        Err(AllocError)
    }
}

// Whether no two relations have one name.
fn names_differ(relations: &[Relation]) -> bool
    ensures differ { IsTrue result → AllPairs (λ r s. r.name ≢ s.name) relations.now }
    ensures same { IsFalse result → ¬ AllPairs (λ r s. r.name ≢ s.name) relations.now }
{
    for later in 0..relations.len() {
        if has_name(&relations[..later], &relations[later].name) {
            return false;
        }
    }
    true
}

// Whether a relation has the name.
fn has_name(relations: &[Relation], name: &Name) -> bool
    ensures none { IsFalse result → All (λ r. r.name ≢ name.now) relations.now }
    ensures some { IsTrue result → ¬ All (λ r. r.name ≢ name.now) relations.now }
{
    relations.iter().any(|relation| relation.name == *name)
}

/// The numbers of the top-level signatures, in order of declaration. A number above 255 is answered as want of memory.
pub fn tops(alloc: Global, model: &Named) -> Result<Vec<u8>, AllocError>
    ensures { IfOk result (λ numbers. numbers.items ≡ tops model.now.signatures.items) }
{
    let numbers = top_signatures(alloc, &model.signatures)?;
    let mut tops = Vec::with_capacity(alloc, numbers.len())?;
    for number in &numbers {
        tops.push(small(*number)?)?;
    }
    Ok(tops)
}

// The number of a relation.
fn small(number: usize) -> Result<u8, AllocError>
    ensures { IfOk result (λ n. n ≡ number) }
{
    match u8::try_from(number) {
        Ok(number) => Ok(number),
        Err(_) => Err(AllocError),
    }
}
