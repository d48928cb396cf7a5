// The top-level signatures, and the one over each signature.
ghost use Rattle.std.specs.Prelude.{◌≡◌, ℕ, map, length, IfOk};
ghost use Rattle.named_model.specs.Signatures.{tops, top_of};
ghost use Rattle.model_types.specs.Parts.Tables.{entry, above, AreParents, AreAbove};

use named_model::named::Signature;
use std::alloc::{AllocError, Global};

/// The numbers of the top-level signatures, in order of declaration.
pub fn top_signatures(alloc: Global, signatures: &[Signature]) -> Result<Vec<usize>, AllocError>
    ensures { IfOk result (λ numbers. numbers.items ≡ tops signatures.now) }
{
    let mut numbers = Vec::new(alloc);
    for number in 0..signatures.len() {
        if signatures[number].parent.is_some() {
            continue;
        }
        numbers.push(number)?;
    }
    Ok(numbers)
}

/// For each signature the top-level signature over it, which is itself where it has no parent. `entry` reads the table.
pub fn tops_over(alloc: Global, signatures: &[Signature]) -> Result<Vec<usize>, AllocError>
    ensures { IfOk result (λ table. (s : ℕ) → entry table.items s ≡ top_of signatures.now s) }
{
    let parents = parents(alloc, signatures)?;
    steps_above(alloc, signatures, &parents, signatures.len())
}

/// What the table has for a number; the number itself, where it has nothing for it.
pub fn entry(table: &[usize], number: usize) -> usize
    ensures { result ≡ entry table.now number }
{
    match table.get(number) {
        Some(&other) => other,
        None => number,
    }
}

// For each signature its parent, or itself where it has none.
fn parents(alloc: Global, signatures: &[Signature]) -> Result<Vec<usize>, AllocError>
    ensures { IfOk result (λ table. AreParents signatures.now table.items) }
{
    let mut table = Vec::new(alloc);
    for number in 0..signatures.len() {
        table.push(above(number, &signatures[number]))?;
    }
    Ok(table)
}

// A signature's parent; its own number, where it has none.
fn above(number: usize, signature: &Signature) -> usize
    ensures { result ≡ above number signature.now }
{
    match signature.parent {
        Some((_, parent)) => parent,
        None => number,
    }
}

// For each signature what stands so many steps above it, by twice half of them.
fn steps_above(
    alloc: Global,
    signatures: &[Signature],
    parents: &[usize],
    steps: usize,
) -> Result<Vec<usize>, AllocError>
    requires { AreParents signatures.now parents.now }
    ensures { IfOk result (λ table. AreAbove signatures.now steps table.items) }
{
    if steps == 0 {
        return itself(alloc, signatures.len());
    }
    let half = steps_above(alloc, signatures, parents, steps / 2)?;
    let twice = followed(alloc, &half, &half)?;
    if steps % 2 == 0 {
        return Ok(twice);
    }
    followed(alloc, &twice, parents)
}

// Each of so many numbers.
fn itself(alloc: Global, count: usize) -> Result<Vec<usize>, AllocError>
    ensures long { IfOk result (λ table. length table.items ≡ count) }
    ensures each { IfOk result (λ table. (s : ℕ) → entry table.items s ≡ s) }
{
    let mut table = Vec::new(alloc);
    for number in 0..count {
        table.push(number)?;
    }
    Ok(table)
}

// What the second table has for each entry of the first.
fn followed(alloc: Global, first: &[usize], second: &[usize]) -> Result<Vec<usize>, AllocError>
    ensures { IfOk result (λ table. table.items ≡ map (entry second.now) first.now) }
{
    let mut table = Vec::new(alloc);
    for number in first {
        table.push(entry(second, *number))?;
    }
    Ok(table)
}
