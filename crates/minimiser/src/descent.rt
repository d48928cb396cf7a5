// The descent.
ghost use Rattle.std.specs.Prelude.{◌≡◌, ◌↔◌, ◌<◌, ◌≤◌, ◌+◌, ℕ, length, Contains, IsTrue, AllPairs, IfOk, OnOk};
ghost use Rattle.cnf_core.specs.Valuation.{value_of};
ghost use Rattle.rel_formula.specs.Instance.{AreCells, IsInstance, Includes};
ghost use Rattle.sat_trail.specs.Trailed.{IsBase};
ghost use Rattle.translation_rules.specs.Imports.{IsImport};
ghost use Rattle.translation_rules.specs.Parts.{novel_in};
ghost use Rattle.translation_rules.specs.Translation.{var_of};
ghost use Rattle.minimiser.specs.Down.{parts_of, IsDescent, IsRight, IsRightOn, IsStopped};
ghost use Rattle.minimiser.specs.Lowering.{IsOver};

use crate::lowering::lowest;
use cnf_core::Valuation;
use refutation_check::{Log, Part};
use rel_formula::Scenario;
use sat_core::{Answer, SavedPhases, StepCount, Trail, solve_from};
use std::alloc::{AllocError, Global};
use translation::Translation;
use translation_rules::laws::descent_clauses_say_what_is_smaller;
use translation_rules::local_clauses::descent_locals;

/// What a descent comes to, with its searches in order.
#[derive(Drop)]
pub enum Down {
    /// A minimal scenario; the last part refutes that an instance lies below it.
    Minimal {
        scenario: Scenario,
        parts: Vec<Part>,
    },
    /// The budget was spent, and the last part goes on.
    Spent {
        parts: Vec<Part>,
    },
}

/// Goes down from an instance that has the floor's cells to a scenario that is minimal above the floor.
///
/// Each search asks for an instance that has the floor's cells and is a proper part of the last one; its local clauses say
/// just this. The descent takes at most `budget` novel steps, which is at most 100,000,000, and its searches raise the count by no
/// more, whatever it comes to. The pool is an accepted log over the translation's clauses, of at most 20,000 steps. The error comes
/// only for want of memory.
pub fn minimise(
    alloc: Global,
    translation: &Translation,
    pool: &Log,
    floor: &Scenario,
    start: &Scenario,
    budget: u64,
    count: &mut StepCount,
) -> Result<Down, AllocError>
    requires import { IsImport translation.now pool.now }
    requires floor { AreCells translation.now.problem floor.now }
    requires start { IsInstance translation.now.problem start.now }
    requires above { Includes start.now floor.now }
    requires budget { budget ≤ 100000000 }
    ensures parts { IfOk result (λ down. IsDescent translation.now pool.now floor.now start.now budget (parts_of down)) }
    ensures answer { IfOk result (IsRight translation.now pool.now floor.now start.now budget) }
    ensures stopped { IfOk result (IsStopped translation.now pool.now) }
    ensures novel { IfOk result (λ down. count.new ≤ count.old + novel_in translation.now pool.now (parts_of down)) }
    ensures spent { count.new ≤ count.old + budget }
{
    let cnf = translation.cnf();
    let base = Trail::over(alloc, cnf, cnf.vars())?;
    minimise_from(alloc, translation, &base, pool, floor, start, budget, count)
}

/// Goes down as `minimise` does, and to the same end, from a trail of the translation's formula, which serves any number of
/// descents.
pub fn minimise_from(
    alloc: Global,
    translation: &Translation,
    base: &Trail,
    pool: &Log,
    floor: &Scenario,
    start: &Scenario,
    budget: u64,
    count: &mut StepCount,
) -> Result<Down, AllocError>
    requires base { IsBase translation.now.cnf base.now }
    requires import { IsImport translation.now pool.now }
    requires floor { AreCells translation.now.problem floor.now }
    requires start { IsInstance translation.now.problem start.now }
    requires above { Includes start.now floor.now }
    requires budget { budget ≤ 100000000 }
    ensures parts { IfOk result (λ down. IsDescent translation.now pool.now floor.now start.now budget (parts_of down)) }
    ensures answer { IfOk result (IsRight translation.now pool.now floor.now start.now budget) }
    ensures stopped { IfOk result (IsStopped translation.now pool.now) }
    ensures novel { IfOk result (λ down. count.new ≤ count.old + novel_in translation.now pool.now (parts_of down)) }
    ensures spent { count.new ≤ count.old + budget }
{
    descent_clauses_say_what_is_smaller();
    let problem = translation.problem();
    let _ = problem.relations(); // for the proof
    let _ = floor.numbers(); // for the proof
    let mut scenario = start.copy(alloc)?;
    let mut parts = Vec::new(alloc);
    let mut left = budget;
    'descent: loop {
        let local = descent_locals(alloc, problem, floor, &scenario)?;
        let mut leaning = SavedPhases::towards(alloc, false);
        match solve_from(
            alloc,
            translation.cnf(),
            base,
            pool,
            local.as_slice(),
            left,
            &mut leaning,
            count,
        )? {
            Answer::Found { valuation, log } => {
                left -= log.steps().len() as u64;
                parts.push(Part::of(local, log))?;
                scenario = scenario_in(alloc, problem.cells(), &valuation)?;
            }
            Answer::Refuted { log } => {
                parts.push(Part::of(local, log))?;
                return Ok(Down::Minimal { scenario, parts });
            }
            Answer::Spent { log } => {
                parts.push(Part::of(local, log))?;
                return Ok(Down::Spent { parts });
            }
        }
    }
}

/// Goes down as `minimise` does, perhaps to another end. The trail is tried first, and serves again afterwards: where decisions
/// and propagation alone lead to a minimal scenario, there are no parts.
pub fn minimise_on(
    alloc: Global,
    translation: &Translation,
    base: &Trail,
    trail: &mut Trail,
    pool: &Log,
    floor: &Scenario,
    start: &Scenario,
    budget: u64,
    count: &mut StepCount,
) -> Result<Down, AllocError>
    requires base { IsBase translation.now.cnf base.now }
    requires trail { IsOver translation.now.cnf trail.old }
    requires import { IsImport translation.now pool.now }
    requires floor { AreCells translation.now.problem floor.now }
    requires start { IsInstance translation.now.problem start.now }
    requires above { Includes start.now floor.now }
    requires budget { budget ≤ 100000000 }
    ensures trail { OnOk result (IsOver translation.now.cnf trail.new) }
    ensures parts { IfOk result (λ down. IsDescent translation.now pool.now floor.now start.now budget (parts_of down)) }
    ensures answer { IfOk result (IsRightOn translation.now pool.now floor.now start.now budget) }
    ensures stopped { IfOk result (IsStopped translation.now pool.now) }
    ensures novel { IfOk result (λ down. count.new ≤ count.old + novel_in translation.now pool.now (parts_of down)) }
    ensures spent { count.new ≤ count.old + budget }
{
    match lowest(alloc, translation, trail, floor, start)? {
        Some(scenario) => Ok(Down::Minimal {
            scenario,
            parts: Vec::new(alloc),
        }),
        None => minimise_from(alloc, translation, base, pool, floor, start, budget, count),
    }
}

// The scenario of the cells whose variables are true.
fn scenario_in(alloc: Global, cells: u32, valuation: &Valuation) -> Result<Scenario, AllocError>
    requires { cells ≤ length valuation.now }
    ensures cells { IfOk result (λ s. (cell : ℕ) → Contains s cell → cell < cells) }
    ensures values { IfOk result (λ s. (cell : ℕ) → cell < cells → IsTrue (value_of valuation.now (var_of cell)) ↔ Contains s cell) }
    ensures rising { IfOk result (λ s. AllPairs (λ m n. m < n) s) }
{
    let mut scenario = Scenario::new(alloc);
    for cell in 0..cells {
        if valuation.value(cell + 1) {
            scenario.insert(cell)?;
        }
    }
    Ok(scenario)
}
