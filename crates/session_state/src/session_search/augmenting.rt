// The step that fixes the current scenario with one tuple more.
ghost use Rattle.std.specs.Prelude.{◌≡◌, ◌<◌, ◌≤◌, ◌+◌, ◌∷◌, [], List, ℕ, IfOk, length};
ghost use Rattle.refutation_check.specs.Pool.{most_pool_steps};
ghost use Rattle.rel_formula.specs.Bounds.{cells_of};
ghost use Rattle.rel_formula.specs.Instance.{AreCells};
ghost use Rattle.translation_rules.specs.Imports.{IsImport};
ghost use Rattle.session_rules.specs.Naming.{NamesCell};
ghost use Rattle.session_rules.specs.States.{State, IsCurrent};
ghost use Rattle.session_rules.specs.Steps.{AsksFor};
ghost use Rattle.session_words.specs.declared.atom_names.AtomName.{AtomName};
ghost use Rattle.session_words.specs.declared.steps.Step.TheVariants.{Augment};
ghost use Rattle.session_state.specs.Sessions.Fits.{FitsProblem, IsKept};
ghost use Rattle.session_state.specs.Sessions.Proposed.{IsProposal};

use crate::search_rounds::StepCount;
use crate::session_search::answer::{Proposal, at_once, searched, spent};
use crate::session_store::SessionStore;
use crate::tuple_names::{Named, what_is_named};
use augmenter::{Sought, seek};
use refutation_check::{Log, Part};
use rel_formula::Scenario;
use session_rules::laws::{a_refuting_part_makes_a_proof, a_run_is_sound, nothing_done_is_work};
use session_rules::{EndProof, Parts, Refusal, Reply, Scenarios};
use session_words::AtomNames;
use std::alloc::{AllocError, Global};
use translation::Translation;
use tuple_core::Name;

// The floors that stand above the bottom at most.
const MOST_FLOORS: usize = 64;

/// What a session proposes where it is to fix the current scenario with the tuple of these names.
pub(crate) fn augment(
    alloc: Global,
    store: &SessionStore,
    translation: &Translation,
    pool: &Log,
    relation: &Name,
    tuple: &AtomNames,
    count: &mut StepCount,
) -> Result<Proposal, AllocError>
    requires fits { FitsProblem translation.now.problem store.now }
    requires kept { IsKept store.now }
    requires import { IsImport translation.now pool.now }
    ensures proposal { IfOk result (IsProposal translation.now pool.now store.now.state (Augment relation.now tuple.now)) }
    ensures spent { count.new ≤ count.old + store.now.state.budget }
{
    a_run_is_sound();
    nothing_done_is_work();
    let named = what_is_named(translation.problem(), relation, tuple.names());
    match store.current() {
        None => Ok(at_once(alloc, Reply::Refused(Refusal::NoScenario))),
        Some(current) => match named {
            Named::Nothing => Ok(at_once(alloc, Reply::Refused(Refusal::UnknownTuple))),
            Named::Always => Ok(at_once(alloc, Reply::Refused(Refusal::Present))),
            Named::Cell(cell) => add_cell(alloc, store, translation, pool, current, cell, count),
        },
    }
}

// What is proposed where the names are those of this cell.
fn add_cell(
    alloc: Global,
    store: &SessionStore,
    translation: &Translation,
    pool: &Log,
    current: &Scenario,
    cell: u32,
    count: &mut StepCount,
) -> Result<Proposal, AllocError>
    requires kept { IsKept store.now }
    requires import { IsImport translation.now pool.now }
    requires current { IsCurrent store.now.state current.now }
    requires cells { AreCells translation.now.problem current.now }
    requires cell { cell < length (cells_of translation.now.problem) }
    ensures proposal { IfOk result (λ p. (name : List ℕ) (names : List AtomName) → NamesCell translation.now.problem name names cell → IsProposal translation.now pool.now store.now.state (Augment name names) p) }
    ensures spent { count.new ≤ count.old + store.now.state.budget }
{
    nothing_done_is_work();
    if current.has(cell) {
        return Ok(at_once(alloc, Reply::Refused(Refusal::Present)));
    }
    if store.height() >= MOST_FLOORS {
        return Ok(at_once(alloc, Reply::Refused(Refusal::Deep)));
    }
    let mut floor = current.copy(alloc)?;
    floor.insert(cell)?;
    go_up(alloc, translation, pool, floor, store.budget(), count)
}

// What is proposed where this floor is asked for, and there is room for one more.
fn go_up(
    alloc: Global,
    translation: &Translation,
    pool: &Log,
    floor: Scenario,
    budget: u32,
    count: &mut StepCount,
) -> Result<Proposal, AllocError>
    requires import { IsImport translation.now pool.now }
    requires floor { AreCells translation.now.problem floor }
    requires budget { budget ≤ 100000 }
    ensures proposal { IfOk result (λ p. (s : State) (name : List ℕ) (names : List AtomName) → AsksFor translation.now.problem s name names floor → length s.above < 64 → s.budget ≡ budget → IsProposal translation.now pool.now s (Augment name names) p) }
    ensures spent { count.new ≤ count.old + budget }
{
    a_refuting_part_makes_a_proof();
    let sought = seek(alloc, translation, pool, &floor, budget as u64, count)?;
    match sought {
        Sought::Possible {
            valuation: _valuation,
            part,
        } => {
            let parts = only(alloc, part)?;
            Ok(searched(alloc, Reply::Augmented { floor }, parts))
        }
        Sought::Impossible { part } => {
            let proof = refuting(alloc, pool, &part)?;
            let parts = only(alloc, part)?;
            let reply = Reply::Refused(Refusal::NoInstance(proof));
            Ok(searched(alloc, reply, parts))
        }
        Sought::Spent { part } => {
            let parts = only(alloc, part)?;
            let none = Scenarios::of(Vec::new(alloc));
            spent(alloc, budget, parts, none)
        }
    }
}

// One part alone.
fn only(alloc: Global, part: Part) -> Result<Parts, AllocError>
    ensures { IfOk result (λ parts. parts ≡ part ∷ []) }
{
    Ok(Parts::of(vec![in alloc; part]?))
}

// The proof that a search makes whose log ends with the empty clause.
fn refuting(alloc: Global, pool: &Log, part: &Part) -> Result<EndProof, AllocError>
    requires few_steps { length pool.now ≤ most_pool_steps }
    requires few { length part.now.log ≤ 100000 }
    ensures { IfOk result (λ proof. proof ≡ record { imported = length pool.now; blocked = []; pool = pool.now; log = part.now.log }) }
{
    let imported = pool.steps().len() as u32;
    let none = Scenarios::of(Vec::new(alloc));
    let pool = pool.copy(alloc)?;
    let log = part.log().copy(alloc)?;
    Ok(EndProof::of(alloc, imported, none, pool, log)?)
}
