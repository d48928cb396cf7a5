// The search for all cells that an instance can be given.
ghost use Rattle.std.specs.Prelude.{◌≤◌, ◌+◌, IfOk};
ghost use Rattle.rel_formula.specs.Instance.{IsInstance};
ghost use Rattle.sat_trail.specs.Trailed.{IsBase};
ghost use Rattle.translation_rules.specs.Imports.{IsImport};
ghost use Rattle.translation_rules.specs.Parts.{novel_in};
ghost use Rattle.augmenter.specs.Offering.{parts_of, AreTrials, IsRight, IsStopped};
ghost use Rattle.augmenter.specs.Raising.{Serves};

use crate::answer::Offers;
use crate::cells::{mark_true, marked_outside};
use crate::search::Sought;
use crate::tried::{seek_on, trail_with};
use refutation_check::Log;
use rel_formula::Scenario;
use sat_core::{StepCount, Trail};
use std::alloc::{AllocError, Global};
use translation::Translation;

/// All cells outside an instance that some instance has together with it.
///
/// Each search asks whether the instance can be given one more cell, and what it finds can be given at once: no search is
/// made for a cell of an instance that was found. The searches take at most `budget` novel steps, which is at most
/// 100,000,000, and raise the count by no more, whatever they come to. The pool is an accepted log over the translation's clauses,
/// of at most 20,000 steps. The error comes only for want of memory.
pub fn offers(
    alloc: Global,
    translation: &Translation,
    pool: &Log,
    scenario: &Scenario,
    budget: u64,
    count: &mut StepCount,
) -> Result<Offers, AllocError>
    requires import { IsImport translation.now pool.now }
    requires scenario { IsInstance translation.now.problem scenario.now }
    requires budget { budget ≤ 100000000 }
    ensures parts { IfOk result (λ offers. AreTrials translation.now pool.now scenario.now budget (parts_of offers)) }
    ensures answer { IfOk result (IsRight translation.now pool.now scenario.now budget) }
    ensures stopped { IfOk result (IsStopped translation.now pool.now) }
    ensures novel { IfOk result (λ offers. count.new ≤ count.old + novel_in translation.now pool.now (parts_of offers)) }
    ensures spent { count.new ≤ count.old + budget }
{
    let cnf = translation.cnf();
    let base = Trail::over(alloc, cnf, cnf.vars())?;
    let mut trail = trail_with(alloc, translation, &base, pool, scenario)?;
    offers_on(
        alloc,
        translation,
        &base,
        &mut trail,
        pool,
        scenario,
        budget,
        count,
    )
}

// Looks for them from a trail of the translation's formula, and first on one that has the scenario's cells too.
fn offers_on(
    alloc: Global,
    translation: &Translation,
    base: &Trail,
    trail: &mut Trail,
    pool: &Log,
    scenario: &Scenario,
    budget: u64,
    count: &mut StepCount,
) -> Result<Offers, AllocError>
    requires base { IsBase translation.now.cnf base.now }
    requires trail { Serves translation.now pool.now scenario.now trail.old }
    requires import { IsImport translation.now pool.now }
    requires scenario { IsInstance translation.now.problem scenario.now }
    requires budget { budget ≤ 100000000 }
    ensures parts { IfOk result (λ offers. AreTrials translation.now pool.now scenario.now budget (parts_of offers)) }
    ensures answer { IfOk result (IsRight translation.now pool.now scenario.now budget) }
    ensures stopped { IfOk result (IsStopped translation.now pool.now) }
    ensures novel { IfOk result (λ offers. count.new ≤ count.old + novel_in translation.now pool.now (parts_of offers)) }
    ensures spent { count.new ≤ count.old + budget }
{
    let problem = translation.problem();
    let _ = problem.relations(); // for the proof
    let cells = problem.cells();
    let mut possible = vec![in alloc; false; cells as usize]?;
    let mut parts = Vec::new(alloc);
    let mut left = budget;
    for cell in 0..cells {
        if scenario.has(cell) || possible[cell as usize] {
            continue;
        }
        match seek_on(
            alloc,
            translation,
            base,
            trail,
            pool,
            scenario,
            cell,
            possible.as_slice(),
            left,
            count,
        )? {
            Sought::Possible { valuation, part } => {
                left -= part.log().steps().len() as u64;
                parts.push(part)?;
                mark_true(possible.as_mut_slice(), &valuation);
            }
            Sought::Impossible { part } => {
                left -= part.log().steps().len() as u64;
                parts.push(part)?;
            }
            Sought::Spent { part } => {
                parts.push(part)?;
                return Ok(Offers::Spent { parts });
            }
        }
    }
    let cells = marked_outside(alloc, scenario, possible.as_slice())?;
    Ok(Offers::Exactly { cells, parts })
}
