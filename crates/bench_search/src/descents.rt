// Descents and offers over the translation of a problem of sets.
ghost use Rattle.std.specs.Prelude.{IfOk, IfSome};
ghost use Rattle.rel_formula.specs.Instance.{AreCells};
ghost use Rattle.bench_search.specs.Descents.{IsDescended, IsOffered};

use crate::found::{Descended, Found, Offered};
use crate::sets::{ATOMS, translated};
use augmenter::{Offers, offers};
use minimiser::{Down, minimise};
use refutation_check::{Log, Part};
use rel_formula::{Problem, Scenario, holds};
use sat_core::StepCount;
use std::alloc::{AllocError, Global};
use translation::Translation;

// The most steps of a descent, and of the search for offers.
const BUDGET: u64 = 10_000_000;

/// What is found where this is done with the problem of so many sets: `make`, `descend` from a scenario of up to 500 cells, or
/// `offer` at a scenario of 10.
pub fn found(alloc: Global, done: &str, sets: u32) -> Result<Option<Found>, AllocError> {
    match translated(alloc, sets)? {
        Some(made) => found_in(alloc, &made, done),
        None => Ok(None),
    }
}

// What is found where this is done with a translation.
fn found_in(alloc: Global, made: &Translation, done: &str) -> Result<Option<Found>, AllocError> {
    match done {
        "make" => Ok(Some(size_of(made))),
        "descend" => Ok(descended(alloc, made, 47, 500)?.map(|down| Found::Descended(down))),
        "offer" => Ok(offered(alloc, made)?.map(|offered| Found::Offered(offered))),
        _ => Ok(None),
    }
}

fn size_of(made: &Translation) -> Found {
    Found::Translated {
        cells: made.problem().cells(),
        variables: made.cnf().vars(),
        clauses: made.cnf().len(),
    }
}

// The first atoms of each set but the last, as `has_step` takes them, up to so many cells.
fn steps_of(
    alloc: Global,
    problem: &Problem,
    first: u32,
    most: usize,
) -> Result<Scenario, AllocError>
    ensures { IfOk result (AreCells problem.now) }
{
    let mut scenario = Scenario::new(alloc);
    for cell in 0..problem.cells().saturating_sub(ATOMS) {
        if scenario.len() < most && has_step(cell, first) {
            scenario.insert(cell)?;
        }
    }
    Ok(scenario)
}

// Whether the cell is taken: of the first four sets so many atoms of the first one, and one more of each than of the one before
// it; of the others all, where so many are ten or more.
fn has_step(cell: u32, first: u32) -> bool {
    let set = cell / ATOMS;
    let atom = cell % ATOMS;
    if set < 4 {
        return atom < first.saturating_add(set);
    }
    first >= 10
}

// How far a descent goes from the first atoms of the sets, where these are an instance.
fn descended(
    alloc: Global,
    made: &Translation,
    first: u32,
    most: usize,
) -> Result<Option<Descended>, AllocError>
    ensures { IfOk result (λ down. IfSome down (IsDescended made.now.problem)) }
{
    let start = steps_of(alloc, made.problem(), first, most)?;
    if !holds(alloc, made.problem(), &start)? {
        return Ok(None);
    }
    let floor = Scenario::new(alloc);
    let mut steps = StepCount::new();
    match minimise(
        alloc,
        made,
        &Log::new(alloc),
        &floor,
        &start,
        BUDGET,
        &mut steps,
    )? {
        Down::Minimal { scenario, parts } => Ok(Some(Descended {
            from: start.len(),
            to: scenario.len(),
            searches: parts.len(),
            steps: steps_in(parts.as_slice()),
        })),
        Down::Spent { .. } => Ok(None),
    }
}

// How many cells are offered at the first atom of the first set, two of the next, and three and four of the next two, where
// these are an instance.
fn offered(alloc: Global, made: &Translation) -> Result<Option<Offered>, AllocError>
    ensures { IfOk result (λ offered. IfSome offered (IsOffered made.now.problem)) }
{
    let problem = made.problem();
    let scenario = steps_of(alloc, problem, 1, 10)?;
    if !holds(alloc, problem, &scenario)? {
        return Ok(None);
    }
    let mut steps = StepCount::new();
    match offers(alloc, made, &Log::new(alloc), &scenario, BUDGET, &mut steps)? {
        Offers::Exactly { cells, parts } => Ok(Some(Offered {
            at: scenario.len(),
            outside: (problem.cells() as usize).saturating_sub(scenario.len()),
            offered: cells.len(),
            searches: parts.len(),
            steps: steps_in(parts.as_slice()),
        })),
        Offers::Spent { .. } => Ok(None),
    }
}

// The steps of the parts together.
fn steps_in(parts: &[Part]) -> u64 {
    let mut steps = 0_u64;
    for part in parts {
        steps = steps.saturating_add(part.log().steps().len() as u64);
    }
    steps
}
