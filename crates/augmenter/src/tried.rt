// A search for an instance that has some cells, tried first on a trail that serves again.
ghost use Rattle.std.specs.Prelude.{◌≡◌, ◌≤◌, ◌<◌, ◌^◌, ◌+◌, ◌++◌, ◌∷◌, [], length, IfOk, IfSome, OnOk};
ghost use Rattle.refutation_check.specs.Chain.{members_of, IsAccepted, IsChain};
ghost use Rattle.refutation_check.specs.Pool.{most_pool_steps};
ghost use Rattle.rel_formula.specs.Bounds.{cells_of};
ghost use Rattle.rel_formula.specs.Instance.{AreCells, with_cell};
ghost use Rattle.sat_trail.specs.Trailed.{IsBase};
ghost use Rattle.translation_rules.specs.Imports.{IsImport};
ghost use Rattle.translation_rules.specs.Parts.{novel_in};
ghost use Rattle.augmenter.specs.Search.{part_in, IsSearchFor, IsRightFor, IsStoppedFor};
ghost use Rattle.augmenter.specs.Raising.{HasCells, Serves};

use crate::raising::{assumes, found_with};
use crate::search::{Sought, seek_from};
use clause_pool::accepted_hints_name_members;
use cnf_core::{Clause, Valuation};
use refutation_check::{Log, Part, Step, accepted_is_entailed};
use rel_formula::Scenario;
use sat_core::{StepCount, Trail};
use sat_trail::{Propagated, learn};
use std::alloc::{AllocError, Global};
use translation::Translation;
use translation_rules::laws::units_say_what_is_possible;
use translation_rules::local_clauses::units_of;

/// A trail of the translation's formula, the scenario's cells, each as a clause, and the pool.
pub(crate) fn trail_with(
    alloc: Global,
    translation: &Translation,
    base: &Trail,
    pool: &Log,
    scenario: &Scenario,
) -> Result<Trail, AllocError>
    requires base { IsBase translation.now.cnf base.now }
    requires few { length pool.now ≤ most_pool_steps }
    requires scenario { AreCells translation.now.problem scenario.now }
    ensures { IfOk result (Serves translation.now pool.now scenario.now) }
{
    let _ = translation.problem().relations(); // for the proof
    let units = units_of(alloc, scenario.numbers())?;
    let trail = base.grown(alloc, translation.cnf(), pool, units.as_slice())?;
    Ok(trail)
}

/// Searches as `seek_from` does for an instance that has the scenario's cells and one more. The trail has the scenario's cells as
/// clauses; it is tried first, and serves again afterwards: what is found on it has many of the cells behind that aren't marked.
pub(crate) fn seek_on(
    alloc: Global,
    translation: &Translation,
    base: &Trail,
    trail: &mut Trail,
    pool: &Log,
    scenario: &Scenario,
    cell: u32,
    marks: &[bool],
    budget: u64,
    count: &mut StepCount,
) -> Result<Sought, AllocError>
    requires base { IsBase translation.now.cnf base.now }
    requires trail { Serves translation.now pool.now scenario.now trail.old }
    requires import { IsImport translation.now pool.now }
    requires scenario { AreCells translation.now.problem scenario.now }
    requires cell { cell < length (cells_of translation.now.problem) }
    requires marks { length marks.now ≡ length (cells_of translation.now.problem) }
    requires budget { budget ≤ 100000000 }
    ensures trail { OnOk result (Serves translation.now pool.now scenario.now trail.new) }
    ensures part { IfOk result (λ sought. IsSearchFor translation.now pool.now (with_cell cell scenario.now) budget (part_in sought)) }
    ensures answer { IfOk result (IsRightFor translation.now pool.now (with_cell cell scenario.now) budget) }
    ensures stopped { IfOk result (IsStoppedFor translation.now pool.now) }
    ensures novel { IfOk result (λ sought. count.new ≤ count.old + novel_in translation.now pool.now (part_in sought ∷ [])) }
    ensures spent { count.new ≤ count.old + budget }
{
    let _ = translation.problem().relations(); // for the proof
    let wanted = with(alloc, scenario, cell)?;
    if assumes(trail, cell) {
        if let Some(valuation) = found_with(alloc, trail, cell, marks)? {
            return given(alloc, translation, pool, &wanted, budget, valuation);
        }
    } else if let Some(sought) = refused(alloc, translation, base, pool, &wanted, budget)? {
        return Ok(sought);
    }
    seek_from(alloc, translation, base, pool, &wanted, budget, count)
}

// The scenario with one more cell.
fn with(alloc: Global, scenario: &Scenario, cell: u32) -> Result<Scenario, AllocError>
    ensures { IfOk result (λ more. more ≡ with_cell cell scenario.now) }
{
    let mut more = scenario.copy(alloc)?;
    more.insert(cell)?;
    Ok(more)
}

// The instance that was found without a step.
fn given(
    alloc: Global,
    translation: &Translation,
    pool: &Log,
    cells: &Scenario,
    budget: u64,
    valuation: Valuation,
) -> Result<Sought, AllocError>
    requires pool { IsAccepted translation.now.cnf.clauses pool.now }
    requires cells { AreCells translation.now.problem cells.now }
    requires found { HasCells translation.now.cnf.vars (members_of translation.now.cnf.clauses pool.now) cells.now valuation }
    ensures part { IfOk result (λ sought. IsSearchFor translation.now pool.now cells.now budget (part_in sought)) }
    ensures answer { IfOk result (IsRightFor translation.now pool.now cells.now budget) }
    ensures stopped { IfOk result (IsStoppedFor translation.now pool.now) }
{
    accepted_hints_name_members();
    accepted_is_entailed();
    units_say_what_is_possible();
    let _ = translation.problem().relations(); // for the proof
    let local = units_of(alloc, cells.numbers())?;
    let part = Part::of(local, Log::new(alloc));
    Ok(Sought::Possible { valuation, part })
}

// The refutation that propagation alone makes, where it makes one and the budget allows it.
fn refused(
    alloc: Global,
    translation: &Translation,
    base: &Trail,
    pool: &Log,
    cells: &Scenario,
    budget: u64,
) -> Result<Option<Sought>, AllocError>
    requires base { IsBase translation.now.cnf base.now }
    requires import { IsImport translation.now pool.now }
    requires cells { AreCells translation.now.problem cells.now }
    requires budget { budget ≤ 100000000 }
    ensures part { IfOk result (λ refused. IfSome refused (λ sought. IsSearchFor translation.now pool.now cells.now budget (part_in sought))) }
    ensures answer { IfOk result (λ refused. IfSome refused (IsRightFor translation.now pool.now cells.now budget)) }
    ensures stopped { IfOk result (λ refused. IfSome refused (IsStoppedFor translation.now pool.now)) }
{
    accepted_hints_name_members();
    accepted_is_entailed();
    units_say_what_is_possible();
    let _ = translation.problem().relations(); // for the proof
    let local = units_of(alloc, cells.numbers())?;
    let Some(step) = empty_step(alloc, translation, base, pool, local.as_slice())? else {
        return Ok(None);
    };
    let mut log = Log::new(alloc);
    if budget == 0 {
        let part = Part::of(local, log);
        return Ok(Some(Sought::Spent { part }));
    }
    log.push(step)?;
    let part = Part::of(local, log);
    Ok(Some(Sought::Impossible { part }))
}

// The empty step, a chain over the formula, the local clauses and the pool, where propagation alone refutes these.
fn empty_step(
    alloc: Global,
    translation: &Translation,
    base: &Trail,
    pool: &Log,
    local: &[Clause],
) -> Result<Option<Step>, AllocError>
    requires base { IsBase translation.now.cnf base.now }
    requires few { length translation.now.cnf.clauses + length local.now + length pool.now < 2 ^ 30 }
    ensures empty { IfOk result (λ step. IfSome step (λ s. s.clause ≡ [])) }
    ensures chain { IfOk result (λ step. IfSome step (λ s. IsChain (members_of (translation.now.cnf.clauses ++ local.now) pool.now) s.clause s.hints)) }
{
    let mut trail = base.grown(alloc, translation.cnf(), pool, local)?;
    match trail.propagate() {
        Propagated::Conflict(number) => {
            let step = learn(alloc, &trail, number)?;
            Ok(Some(step))
        }
        Propagated::Closed => Ok(None),
    }
}
