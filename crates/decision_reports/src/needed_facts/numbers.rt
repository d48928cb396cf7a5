// Lists of facts, by their numbers.
ghost use Rattle.std.specs.Prelude.{◌≡◌, IfOk};
ghost use Rattle.std.specs.List.{range_with_len};
ghost use Rattle.decision_reports.specs.SomeFacts.{outside, without};

use std::alloc::{AllocError, Global};

/// So many numbers, from 1 on.
#[tactic(auto, using(rel_lower::proofs::Numbers::one_more))]
pub fn numbers_to(alloc: Global, count: usize) -> Result<Vec<usize>, AllocError>
    ensures { IfOk result (λ numbers. numbers.items ≡ range_with_len 1 count) }
{
    let mut numbers = Vec::with_capacity(alloc, count)?;
    for number in 0..count {
        numbers.push(number + 1)?;
    }
    Ok(numbers)
}

/// All but this fact.
pub fn facts_without(alloc: Global, facts: &[usize], fact: usize) -> Result<Vec<usize>, AllocError>
    ensures { IfOk result (λ others. others.items ≡ without fact facts.now) }
{
    facts
        .iter()
        .copied()
        .filter(|other| *other != fact)
        .collect(alloc)
}

/// All but the facts from the first number to the last.
pub fn facts_outside(
    alloc: Global,
    facts: &[usize],
    first: usize,
    last: usize,
) -> Result<Vec<usize>, AllocError>
    ensures { IfOk result (λ others. others.items ≡ outside first last facts.now) }
{
    facts
        .iter()
        .copied()
        .filter(|fact| *fact < first || last < *fact)
        .collect(alloc)
}
