// How many instances small models have.
use crate::lowered::lowered;
use rel_formula::{Problem, holds};
use sample_problems::scenario_of;
use std::alloc::{AllocError, Global};
use std::process::Abort;
use std::test::Fail;

// The most cells of a problem of which all scenarios are tried.
const MOST_CELLS: u32 = 12;

/// How many scenarios are instances. It fails where there is no problem, or one of more than 12 cells.
pub fn counted(
    alloc: Global,
    text: &str,
    command: u32,
    facts: Option<&[usize]>,
) -> Result<u32, Fail> {
    match lowered(alloc, text, command, facts)? {
        Ok(problem) => instances(alloc, &problem),
        Err(_) => Err("no problem")?,
    }
}

fn instances(alloc: Global, problem: &Problem) -> Result<u32, Fail> {
    if problem.cells() > MOST_CELLS {
        return Err("too many cells")?;
    }
    let mut count = 0u32;
    for chosen in 0..1u32 << problem.cells() {
        count = count.saturating_add(u32::from(is_instance(alloc, problem, chosen)?));
    }
    Ok(count)
}

fn is_instance(alloc: Global, problem: &Problem, chosen: u32) -> Result<bool, AllocError> {
    let scenario = scenario_of(alloc, problem, chosen)?;
    holds(alloc, problem, &scenario)
}

/// Whether the first command of each of these models has so many instances, with all facts.
pub fn counts(rt: &impl Abort, alloc: Global, rows: &[(&str, u32)]) -> Result<(), Fail> {
    for (text, expected) in rows {
        assert_eq!(rt; counted(alloc, text, 1, None)?, *expected, "{text}");
    }
    Ok(())
}

fn problem_of(alloc: Global, text: &str) -> Result<Problem, Fail> {
    match lowered(alloc, text, 1, None)? {
        Ok(problem) => Ok(problem),
        Err(_) => Err("no problem")?,
    }
}

/// Whether the first commands of these two models have the same instances by the numbers of their cells, of which there are
/// equally many, and at most 12.
pub fn agree(rt: &impl Abort, alloc: Global, first: &str, second: &str) -> Result<(), Fail> {
    let one = problem_of(alloc, first)?;
    let other = problem_of(alloc, second)?;
    assert_eq!(*rt; one.cells(), other.cells(), "{first}");
    assert!(*rt; one.cells() <= MOST_CELLS, "{first}");
    for chosen in 0..1u32 << one.cells() {
        let of_one = is_instance(alloc, &one, chosen)?;
        assert_eq!(*rt; of_one, is_instance(alloc, &other, chosen)?, "{first}");
    }
    Ok(())
}
