// That offers are the cells that the definition gives: every instance of small problems, beside the evaluator.
ghost use Rattle.rel_formula.specs.Instance.{AreCells};

use crate::pairs_of_sets::translated;
use augmenter::{Offers, Sought, offers, seek};
use refutation_check::Log;
use rel_formula::{Problem, Scenario, holds};
use sample_problems::{bits_of, scenario_of};
use sat_core::StepCount;
use std::alloc::{AllocError, Global};
use std::test::Fail;
use translation::Translation;

// The bits of the cells that are offered, none where the budget is spent, and the number of searches.
fn told(offered: &Offers) -> (Option<u32>, usize) {
    match offered {
        Offers::Exactly { cells, parts } => (Some(bits_of(cells.as_slice())), parts.len()),
        Offers::Spent { parts } => (None, parts.len()),
    }
}

// What is offered at a scenario, and none where it is no instance.
fn offers_beside(
    alloc: Global,
    made: &Translation,
    scenario: &Scenario,
    budget: u16,
) -> Result<Option<(Option<u32>, usize)>, AllocError>
    requires { AreCells made.now.problem scenario.now }
{
    if !holds(alloc, made.problem(), scenario)? {
        return Ok(None);
    }
    let pool = Log::new(alloc);
    let mut count = StepCount::new();
    let offered = offers(alloc, made, &pool, scenario, u64::from(budget), &mut count)?;
    Ok(Some(told(&offered)))
}

// What is offered at the scenario of these bits.
fn offers_at(
    alloc: Global,
    made: &Translation,
    bits: u32,
    budget: u16,
) -> Result<Option<(Option<u32>, usize)>, AllocError> {
    let scenario = scenario_of(alloc, made.problem(), bits)?;
    offers_beside(alloc, made, &scenario, budget)
}

// Whether the scenario of these bits is an instance.
fn is_instance(alloc: Global, problem: &Problem, bits: u32) -> Result<bool, AllocError> {
    let scenario = scenario_of(alloc, problem, bits)?;
    holds(alloc, problem, &scenario)
}

// The bits of each instance.
fn instances_of(alloc: Global, problem: &Problem) -> Result<Vec<u32>, AllocError> {
    let mut instances = Vec::new(alloc);
    for bits in 0..1 << problem.cells().min(8) {
        if is_instance(alloc, problem, bits)? {
            instances.push(bits)?;
        }
    }
    Ok(instances)
}

// 0 where an instance was found, 1 where there is none, 2 where the budget is spent.
fn outcome(sought: &Sought) -> u32 {
    match sought {
        Sought::Possible { .. } => 0,
        Sought::Impossible { .. } => 1,
        Sought::Spent { .. } => 2,
    }
}

// What the search for these cells comes to.
fn sought_in(alloc: Global, made: &Translation, bits: u32, budget: u16) -> Result<u32, AllocError> {
    let cells = scenario_of(alloc, made.problem(), bits)?;
    let pool = Log::new(alloc);
    let mut count = StepCount::new();
    let sought = seek(alloc, made, &pool, &cells, u64::from(budget), &mut count)?;
    Ok(outcome(&sought))
}

// What the offers at the scenario are for the formula of this number over two atoms.
fn offers_of(
    alloc: Global,
    number: u32,
    bits: u32,
    budget: u16,
) -> Result<Option<(Option<u32>, usize)>, Fail> {
    let made = translated(alloc, &[0, 1], false, number)?;
    Ok(offers_at(alloc, &made, bits, budget)?)
}

// What the search comes to where the first set has one of two atoms at most.
fn sought_of(alloc: Global, bits: u32, budget: u16) -> Result<u32, Fail> {
    let made = translated(alloc, &[0, 1], false, 1)?;
    Ok(sought_in(alloc, &made, bits, budget)?)
}

#[test]
fn at_most_one(rt: HostRuntime) -> Result<(), Fail> {
    let alloc = rt.alloc();
    assert_eq!(rt; offers_of(alloc, 1, 0b01, 100)?, Some((Some(0), 1)));
    assert_eq!(rt; offers_of(alloc, 1, 0, 100)?, Some((Some(0b11), 2)));
    Ok(())
}

// No instance has two atoms; without a budget nothing is refuted.
#[test]
fn two_of_at_most_one(rt: HostRuntime) -> Result<(), Fail> {
    for (bits, budget, outcome) in [(0b01, 100, 0), (0b11, 100, 1), (0b11, 0, 2)] {
        assert_eq!(rt; sought_of(rt.alloc(), bits, budget)?, outcome);
    }
    Ok(())
}

// The budget is spent at the first cell that can't be given.
#[test]
fn a_spent_budget(rt: HostRuntime) -> Result<(), Fail> {
    let alloc = rt.alloc();
    assert_eq!(rt; offers_of(alloc, 1, 0b01, 0)?, Some((None, 1)));
    assert_eq!(rt; offers_of(alloc, 1, 0b01, 1)?, Some((Some(0), 1)));
    Ok(())
}

// Of two atoms with the empty formula, each can be there.
#[test]
fn anything(rt: HostRuntime) -> Result<(), Fail> {
    let (cells, _) = offers_of(rt.alloc(), 0, 0, 100)?.unwrap_or((None, 0));
    assert_eq!(rt; cells, Some(0b11));
    Ok(())
}

// The bits of the cells that the instances have which contain this one, without its own.
fn others_above(instances: &[u32], start: u32) -> u32 {
    let mut above = 0;
    for other in instances {
        if *other & start == start {
            above |= *other;
        }
    }
    above & !start
}

// Whether these are the cells to be offered at the start, found with at most one search for each of six cells outside.
fn are_right(offered: Option<(Option<u32>, usize)>, above: u32, start: u32) -> bool {
    let (cells, parts) = offered.unwrap_or((None, 100));
    cells == Some(above) && parts <= 6usize.saturating_sub(start.count_ones() as usize)
}

// Whether every instance can be given the cells of the instances that contain it, and these alone.
fn offers_are_right(alloc: Global, made: &Translation) -> Result<bool, AllocError> {
    let instances = instances_of(alloc, made.problem())?;
    for start in &instances {
        let above = others_above(instances.as_slice(), *start);
        if !are_right(offers_at(alloc, made, *start, 1000)?, above, *start) {
            return Ok(false);
        }
    }
    Ok(true)
}

// Whether it is so for the formula of this number over three atoms.
fn is_right_for(alloc: Global, number: u32, both: bool) -> Result<bool, Fail> {
    let made = translated(alloc, &[0, 1, 2], both, number)?;
    Ok(offers_are_right(alloc, &made)?)
}

#[test]
fn every_instance(rt: HostRuntime) -> Result<(), Fail> {
    for number in 0..16 {
        assert!(rt;
            is_right_for(rt.alloc(), number / 2, number % 2 == 1)?,
            "formula {number}"
        );
    }
    Ok(())
}
