// That each search raises the count that it is handed.
ghost use Rattle.std.specs.Prelude.{◌<◌};

use crate::of_sat_core::formula;
use refutation_check::Log;
use sat_core::{StepCount, solve};
use std::alloc::Global;
use std::test::Fail;

// Searches for a valuation of four clauses that one learnt step and an empty one refute.
fn search(alloc: Global, budget: u64, count: &mut StepCount) -> Result<(), Fail>
    requires { budget < 100000 }
{
    let square = formula(alloc, 2, &[&[1, 2], &[1, -2], &[-1, 2], &[-1, -2]])?;
    let _answer = solve(alloc, &square, &Log::new(alloc), &[], budget, count)?;
    Ok(())
}

#[test]
fn two_searches_are_counted_twice(rt: HostRuntime) -> Result<(), Fail> {
    let mut count = StepCount::new();
    assert_eq!(rt; count.steps(), 0);
    search(rt.alloc(), 9, &mut count)?;
    assert_eq!(rt; count.steps(), 1);
    search(rt.alloc(), 9, &mut count)?;
    assert_eq!(rt; count.steps(), 2);
    Ok(())
}

#[test]
fn a_spent_search_is_counted(rt: HostRuntime) -> Result<(), Fail> {
    let mut count = StepCount::new();
    search(rt.alloc(), 0, &mut count)?;
    assert_eq!(rt; count.steps(), 0);
    search(rt.alloc(), 1, &mut count)?;
    assert_eq!(rt; count.steps(), 1);
    Ok(())
}

#[test]
fn counts_are_added(rt: HostRuntime) -> Result<(), Fail> {
    let mut count = StepCount::new();
    search(rt.alloc(), 9, &mut count)?;
    let mut other = StepCount::new();
    search(rt.alloc(), 9, &mut other)?;
    count.add(other);
    assert_eq!(rt; count.steps(), 2);
    Ok(())
}
