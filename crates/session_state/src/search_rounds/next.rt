// The next scenario at a floor.
ghost use Rattle.std.specs.Prelude.{◌≡◌, ◌≤◌, ◌+◌, ◌++◌, length, All, Contains, IfOk, OnOk};
ghost use Rattle.refutation_check.specs.Pool.{most_pool_steps};
ghost use Rattle.rel_formula.specs.Instance.{AreCells};
ghost use Rattle.swap_symmetry.specs.Due.{IsDue};
ghost use Rattle.sat_trail.specs.Trailed.{IsBase};
ghost use Rattle.minimiser.specs.Lowering.{IsOver};
ghost use Rattle.translation_rules.specs.Imports.{IsImport};
ghost use Rattle.translation_rules.specs.Locals.{locals_of as locals_at};
ghost use Rattle.translation_rules.specs.Parts.{AreSearched};
ghost use Rattle.session_rules.specs.Proofs.{IsCopy};
ghost use Rattle.session_rules.specs.Work.{IsNextWork, units_in};
ghost use Rattle.session_state.specs.Rounds.Next.{IsAnswer, IsStopped};
ghost use Rattle.session_state.specs.Rounds.Going.{IsBlockedAt, IsGoing, StaysAt};

use crate::search_rounds::going::round_on;
use crate::search_rounds::locals::locals_of;
use crate::search_rounds::round::RoundEnd;
use crate::search_rounds::trails::{KeptTrails, Trails};
use refutation_check::{LocalClauses, Log, Part};
use rel_formula::Scenario;
use sat_core::{KeptSearch, SavedPhases, StepCount, Trail};
use session_rules::laws::{a_proof_of_an_end_is_right, a_refuting_part_makes_a_proof};
use session_rules::{EndProof, Parts, Scenarios};
use std::alloc::{AllocError, Global};
use translation::Translation;

/// What a session finds for the next scenario at a floor, with the parts of its searches in order, and the copies of shown
/// scenarios that it came upon.
#[derive(Drop)]
pub struct NextAt {
    pub found: Found,
    pub parts: Parts,
    pub copies: Scenarios,
}

/// What the searches lead to.
#[derive(Drop)]
pub enum Found {
    /// A scenario that is due at the floor and was not shown.
    Shown { scenario: Scenario },
    /// All that is due at the floor was shown, as the proof shows.
    Ended { proof: EndProof },
    /// The budget was spent before there was an answer: the last part goes on, or there is one more copy.
    Spent,
}

/// Looks for a scenario that is due at a floor and was not shown there.
///
/// Each round searches for an instance that has the floor's cells, is settled beside the floor and has no blocked scenario in
/// it, and goes down from what it finds. Blocked are the scenarios that were shown, the copies of them that are known, and
/// those that this call comes upon; each round but the last comes upon a new copy. The call takes at most `budget` units, novel
/// steps and new copies, and exactly so many where it answers `Spent`; its searches raise the count by no more. The pool is an accepted log over the translation's clauses,
/// of at most 20,000 steps; the blocked scenarios are at most 100,000,000, and so is the budget. What was kept serves where it is of such a
/// search, and keeps no more than half of the budget; what is kept in its place serves the next call, where a scenario is shown and is not
/// the first of these calls' (`KeptTrails::new`). The error comes only for want of memory.
pub fn next_at(
    alloc: Global,
    translation: &Translation,
    pool: &Log,
    floor: &Scenario,
    shown: &[Scenario],
    copies: &[Scenario],
    budget: u64,
    kept: &mut KeptTrails,
    count: &mut StepCount,
) -> Result<NextAt, AllocError>
    requires import { IsImport translation.now pool.now }
    requires floor { AreCells translation.now.problem floor.now }
    requires shown { All (IsDue translation.now.problem floor.now) shown.now }
    requires copies { All (IsCopy translation.now.problem floor.now shown.now) copies.now }
    requires few { length shown.now + length copies.now ≤ 100000000 }
    requires budget { budget ≤ 100000000 }
    ensures searched { IfOk result (λ next. AreSearched translation.now pool.now next.parts) }
    ensures work { IfOk result (λ next. (work : IsNextWork translation.now floor.now shown.now next.parts next.copies) × (work.blocked ≡ shown.now ++ copies.now) × (length work.rounds ≡ length next.copies + 1)) }
    ensures copies { IfOk result (λ next. All (λ copy. IsCopy translation.now.problem floor.now shown.now copy × (¬ Contains copies.now copy)) next.copies) }
    ensures units { IfOk result (λ next. units_in translation.now pool.now next.parts next.copies ≤ budget) }
    ensures answer { IfOk result (λ next. IsAnswer translation.now pool.now floor.now shown.now copies.now budget next.parts next.copies next.found) }
    ensures stopped { IfOk result (λ next. IsStopped translation.now pool.now floor.now shown.now next.parts next.copies next.found) }
    ensures spent { count.new ≤ count.old + budget }
{
    let blocked = joined(alloc, shown, copies)?;
    let problem = translation.problem();
    let _ = problem.relations(); // for the proof
    let _ = floor.numbers(); // for the proof
    let local = locals_of(alloc, translation, floor, blocked.as_slice())?;
    let mut trails = kept.woken(alloc, translation, pool, local.as_slice(), budget / 2)?;
    let mut local = LocalClauses::of(alloc, local)?;
    let next = next_from(
        alloc,
        translation,
        &trails.base,
        &mut trails.descents,
        &mut trails.search,
        &mut local,
        pool,
        floor,
        shown,
        copies,
        blocked,
        budget,
        &mut kept.leaning,
        count,
    )?;
    if let Found::Shown { .. } = next.found {
        kept.rest(alloc, translation, pool, trails, local.into_clauses())?;
    }
    Ok(next)
}

// Looks for it by a search that is gone on with, and goes down on a trail of its own.
fn next_from(
    alloc: Global,
    translation: &Translation,
    base: &Trail,
    trail: &mut Trail,
    search: &mut KeptSearch,
    local: &mut LocalClauses,
    pool: &Log,
    floor: &Scenario,
    shown: &[Scenario],
    copies: &[Scenario],
    blocked: Vec<Scenario>,
    budget: u64,
    leaning: &mut SavedPhases,
    count: &mut StepCount,
) -> Result<NextAt, AllocError>
    requires base { IsBase translation.now.cnf base.now }
    requires trail { IsOver translation.now.cnf trail.old }
    requires blocked { blocked.items ≡ shown.now ++ copies.now }
    requires local { local.old ≡ locals_at translation.now floor.now blocked.items }
    requires going { IsGoing translation.now pool.now floor.now blocked.items search.old }
    requires kept { length search.old.steps ≤ budget }
    requires import { IsImport translation.now pool.now }
    requires floor { AreCells translation.now.problem floor.now }
    requires shown { All (IsDue translation.now.problem floor.now) shown.now }
    requires copies { All (IsCopy translation.now.problem floor.now shown.now) copies.now }
    requires few { length shown.now + length copies.now ≤ 100000000 }
    requires budget { budget ≤ 100000000 }
    ensures trail { OnOk result (IsOver translation.now.cnf trail.new) }
    ensures local { IfOk result (λ next. IsBlockedAt translation.now floor.now (shown.now ++ copies.now ++ next.copies) local.new next.found) }
    ensures going { IfOk result (λ next. StaysAt translation.now pool.now floor.now (shown.now ++ copies.now ++ next.copies) search.new next.found) }
    ensures searched { IfOk result (λ next. AreSearched translation.now pool.now next.parts) }
    ensures work { IfOk result (λ next. (work : IsNextWork translation.now floor.now shown.now next.parts next.copies) × (work.blocked ≡ shown.now ++ copies.now) × (length work.rounds ≡ length next.copies + 1)) }
    ensures copies { IfOk result (λ next. All (λ copy. IsCopy translation.now.problem floor.now shown.now copy × (¬ Contains copies.now copy)) next.copies) }
    ensures units { IfOk result (λ next. units_in translation.now pool.now next.parts next.copies ≤ budget) }
    ensures answer { IfOk result (λ next. IsAnswer translation.now pool.now floor.now shown.now copies.now budget next.parts next.copies next.found) }
    ensures stopped { IfOk result (λ next. IsStopped translation.now pool.now floor.now shown.now next.parts next.copies next.found) }
    ensures spent { count.new ≤ count.old + budget }
{
    a_refuting_part_makes_a_proof();
    a_proof_of_an_end_is_right();
    let _ = translation.problem(); // for the proof
    let _copies = copies; // for the proof
    let mut blocked = blocked;
    let mut parts = Vec::new(alloc);
    let mut found = Vec::new(alloc);
    let mut left = budget;
    'rounds: loop {
        match round_on(
            alloc,
            translation,
            base,
            trail,
            search,
            local,
            pool,
            floor,
            shown,
            blocked.as_slice(),
            left,
            leaning,
            count,
        )? {
            RoundEnd::Due {
                scenario,
                parts: more,
            } => {
                add_parts(&mut parts, more)?;
                return Ok(next_of(Found::Shown { scenario }, parts, found));
            }
            RoundEnd::Copy {
                scenario,
                parts: more,
                left: rest,
            } => {
                add_parts(&mut parts, more)?;
                found.push(scenario.copy(alloc)?)?;
                blocked.push(scenario)?;
                left = rest;
            }
            RoundEnd::Refuted { part } => {
                let proof = proof_of(alloc, pool, blocked, &part)?;
                parts.push(part)?;
                return Ok(next_of(Found::Ended { proof }, parts, found));
            }
            RoundEnd::Spent { parts: more } => {
                add_parts(&mut parts, more)?;
                return Ok(next_of(Found::Spent, parts, found));
            }
        }
    }
}

// Puts parts behind others.
fn add_parts(parts: &mut Vec<Part>, mut more: Vec<Part>) -> Result<(), AllocError>
    ensures { OnOk result (parts.new.items ≡ parts.old.items ++ more.items) }
{
    parts.append(&mut more)?;
    Ok(())
}

// What was found, and what was done for it.
fn next_of(found: Found, parts: Vec<Part>, copies: Vec<Scenario>) -> NextAt
    ensures { result ≡ record { found = found; parts = parts.items; copies = copies.items } }
{
    NextAt {
        found,
        parts: Parts::of(parts),
        copies: Scenarios::of(copies),
    }
}

/// The proof of an end that a search makes whose log ends with the empty clause: what was imported, the scenarios that were blocked,
/// and the log. The error comes only for want of memory.
pub fn proof_of(
    alloc: Global,
    pool: &Log,
    blocked: Vec<Scenario>,
    part: &Part,
) -> Result<EndProof, AllocError>
    requires few_steps { length pool.now ≤ most_pool_steps }
    requires few { length blocked.items + length part.now.log ≤ 210000000 }
    ensures { IfOk result (λ proof. proof ≡ record { imported = length pool.now; blocked = blocked.items; pool = pool.now; log = part.now.log }) }
{
    let imported = pool.steps().len() as u32;
    let steps = pool.copy(alloc)?;
    let log = part.log().copy(alloc)?;
    Ok(EndProof::of(alloc, imported, Scenarios::of(blocked), steps, log)?)
}

/// Equal scenarios: the first ones, and then the second. The error comes only for want of memory.
pub fn joined(
    alloc: Global,
    first: &[Scenario],
    second: &[Scenario],
) -> Result<Vec<Scenario>, AllocError>
    ensures { IfOk result (λ all. all.items ≡ first.now ++ second.now) }
{
    let mut all = Vec::new(alloc);
    add_copies(alloc, &mut all, first)?;
    add_copies(alloc, &mut all, second)?;
    Ok(all)
}

fn add_copies(
    alloc: Global,
    all: &mut Vec<Scenario>,
    scenarios: &[Scenario],
) -> Result<(), AllocError>
    ensures { OnOk result (all.new.items ≡ all.old.items ++ scenarios.now) }
{
    for scenario in scenarios {
        all.push(scenario.copy(alloc)?)?;
    }
    Ok(())
}
