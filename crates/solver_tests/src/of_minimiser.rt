// That descents end at minimal scenarios: every start and floor of small problems, beside the evaluator.
ghost use Rattle.std.specs.Prelude.{IsTrue, OnOk};
ghost use Rattle.rel_formula.specs.Instance.{AreCells, Includes};
ghost use Rattle.sat_trail.specs.Trailed.{IsBase};
ghost use Rattle.minimiser.specs.Lowering.{IsOver};

use minimiser::{Down, minimise, minimise_on};
use refutation_check::Log;
use rel_formula::{Scenario, holds};
use sample_problems::{bits_of, scenario_of};
use samples::sample_translations::translated_sets;
use sat_core::StepCount;
use sat_trail::Trail;
use std::alloc::{AllocError, Global};
use std::test::Fail;
use translation::Translation;

// The bits of the scenario that a descent ends at, none where the budget is spent, and the number of searches.
fn told(down: &Down) -> (Option<u32>, usize) {
    match down {
        Down::Minimal { scenario, parts } => (Some(bits_of(scenario.numbers())), parts.len()),
        Down::Spent { parts } => (None, parts.len()),
    }
}

// What a descent from a start comes to, and none where the start is no instance above the floor.
fn goes_down(
    alloc: Global,
    made: &Translation,
    floor: &Scenario,
    start: &Scenario,
    budget: u16,
) -> Result<Option<(Option<u32>, usize)>, AllocError>
    requires floor { AreCells made.now.problem floor.now }
    requires start { AreCells made.now.problem start.now }
{
    if !holds(alloc, made.problem(), start)? || !includes(start, floor) {
        return Ok(None);
    }
    let pool = Log::new(alloc);
    let mut count = StepCount::new();
    let down = minimise(
        alloc,
        made,
        &pool,
        floor,
        start,
        u64::from(budget),
        &mut count,
    )?;
    Ok(Some(told(&down)))
}

// What a descent comes to between the scenarios of these bits.
fn goes_down_to(
    alloc: Global,
    made: &Translation,
    floor: u32,
    start: u32,
    budget: u16,
) -> Result<Option<(Option<u32>, usize)>, AllocError> {
    let floor = scenario_of(alloc, made.problem(), floor)?;
    let start = scenario_of(alloc, made.problem(), start)?;
    goes_down(alloc, made, &floor, &start, budget)
}

// Whether the first scenario has each cell of the other.
fn includes(scenario: &Scenario, floor: &Scenario) -> bool
    ensures { IsTrue result → Includes scenario.now floor.now }
{
    for cell in floor.numbers() {
        if !scenario.has(*cell) {
            return false;
        }
    }
    true
}

// What a descent comes to over two atoms: P of each of them, and Q of each of them.
fn descent(
    alloc: Global,
    floor: u32,
    start: u32,
    budget: u16,
) -> Result<Option<(Option<u32>, usize)>, Fail> {
    let made = translated_sets(alloc, &[0, 1])?;
    Ok(goes_down_to(alloc, &made, floor, start, budget)?)
}

// P of the first atom and Q of the second: only the second is needed, since a descent doesn't look at symmetry.
#[test]
fn what_is_not_needed_goes(rt: HostRuntime) -> Result<(), Fail> {
    let alloc = rt.alloc();
    assert_eq!(rt; descent(alloc, 0, 0b1001, 100)?, Some((Some(0b1000), 2)));
    assert_eq!(rt;
        descent(alloc, 0b0001, 0b1001, 100)?,
        Some((Some(0b1001), 1))
    );
    Ok(())
}

// Whether the end is an instance above the floor, in the start, with one cell of Q beside the floor's, or with none where the
// floor has one.
fn is_right_end(end: Option<u32>, floor: u32, start: u32) -> bool {
    let more = if floor >> 2 == 0 { 1 } else { 0 };
    match end {
        Some(end) => {
            end & floor == floor
                && end & start == end
                && (end & !floor).count_ones() == more
                && end & 0b0011 == floor & 0b0011
        }
        None => false,
    }
}

// Whether the descent from the start ends so, where it is an instance above the floor.
fn ends_right(
    alloc: Global,
    made: &Translation,
    floor: u32,
    start: u32,
) -> Result<bool, AllocError> {
    match goes_down_to(alloc, made, floor, start, 100)? {
        Some((end, _)) => Ok(is_right_end(end, floor, start)),
        None => Ok(true),
    }
}

// Every start and every floor.
#[test]
fn every_start_and_floor(rt: HostRuntime) -> Result<(), Fail> {
    let made = translated_sets(rt.alloc(), &[0, 1])?;
    for start in 0..16u32 {
        for floor in 0..16u32 {
            assert!(rt;
                ends_right(rt.alloc(), &made, floor, start)?,
                "from {start} above {floor}"
            );
        }
    }
    Ok(())
}

// Without a budget the smaller instance is still found, but not that nothing is below it.
#[test]
fn a_spent_budget(rt: HostRuntime) -> Result<(), Fail> {
    let alloc = rt.alloc();
    assert_eq!(rt; descent(alloc, 0, 0b1001, 0)?, Some((None, 2)));
    assert_eq!(rt; descent(alloc, 0, 0b1001, 1)?, Some((Some(0b1000), 2)));
    Ok(())
}

// What a descent on this trail comes to between the scenarios of these bits, and none where the start is no instance above the floor.
fn goes_down_on(
    alloc: Global,
    made: &Translation,
    base: &Trail,
    trail: &mut Trail,
    floor: u32,
    start: u32,
    budget: u16,
) -> Result<Option<(Option<u32>, usize)>, AllocError>
    requires base { IsBase made.now.cnf base.now }
    requires trail { IsOver made.now.cnf trail.old }
    ensures trail { OnOk result (IsOver made.now.cnf trail.new) }
{
    let floor = scenario_of(alloc, made.problem(), floor)?;
    let start = scenario_of(alloc, made.problem(), start)?;
    if !holds(alloc, made.problem(), &start)? || !includes(&start, &floor) {
        return Ok(None);
    }
    let pool = Log::new(alloc);
    let budget = u64::from(budget);
    let mut count = StepCount::new();
    let down = minimise_on(
        alloc, made, base, trail, &pool, &floor, &start, budget, &mut count,
    )?;
    Ok(Some(told(&down)))
}

// Whether the descent on this trail ends right with no budget and without searches, where its start is an instance above the floor.
fn ends_right_on(
    alloc: Global,
    made: &Translation,
    base: &Trail,
    trail: &mut Trail,
    floor: u32,
    start: u32,
) -> Result<bool, AllocError>
    requires base { IsBase made.now.cnf base.now }
    requires trail { IsOver made.now.cnf trail.old }
    ensures trail { OnOk result (IsOver made.now.cnf trail.new) }
{
    match goes_down_on(alloc, made, base, trail, floor, start, 0)? {
        Some((end, searches)) => Ok(is_right_end(end, floor, start) && searches == 0),
        None => Ok(true),
    }
}

// The first start and floor whose descent on this trail ends otherwise, if there is one.
fn first_that_ends_wrong(
    alloc: Global,
    made: &Translation,
    base: &Trail,
    trail: &mut Trail,
) -> Result<Option<(u32, u32)>, AllocError>
    requires base { IsBase made.now.cnf base.now }
    requires trail { IsOver made.now.cnf trail.old }
{
    for case in 0..256u32 {
        let start = case / 16;
        let floor = case % 16;
        if !ends_right_on(alloc, made, base, trail, floor, start)? {
            return Ok(Some((start, floor)));
        }
    }
    Ok(None)
}

// Every start and every floor on one trail, on which decisions and propagation alone lead to a minimal scenario each time.
#[test]
fn every_start_and_floor_on_one_trail(rt: HostRuntime) -> Result<(), Fail> {
    let alloc = rt.alloc();
    let made = translated_sets(alloc, &[0, 1])?;
    let cnf = made.cnf();
    let base = Trail::over(alloc, cnf, cnf.vars())?;
    let mut trail = base.copy(alloc)?;
    assert_eq!(rt;
        first_that_ends_wrong(alloc, &made, &base, &mut trail)?,
        None
    );
    Ok(())
}
