// Rounds of a search that is gone on with.
ghost use Rattle.std.specs.Prelude.{◌≡◌, ◌<◌, ◌≤◌, ◌+◌, ◌^◌, ◌++◌, ◌∷◌, [], ℕ, List, length, All, Contains, MatchBool, IfOk, OnOk};
ghost use Rattle.refutation_check.specs.Chain.{IsChain, members_of};
ghost use Rattle.refutation_check.specs.Part.{Parted};
ghost use Rattle.rel_formula.specs.Instance.{AreCells};
ghost use Rattle.sat_trail.specs.Trailed.{IsBase};
ghost use Rattle.minimiser.specs.Lowering.{IsOver};
ghost use Rattle.translation_rules.specs.Imports.{IsImport};
ghost use Rattle.translation_rules.specs.Locals.{IsLeft, locals_of as locals_at};
ghost use Rattle.sat_core.specs.Kept.{AreWithin, IsKept, told as kept_log};
ghost use Rattle.session_state.specs.Rounds.Descended.{DescendsTo};
ghost use Rattle.session_state.specs.Rounds.Going.{IsGoing, IsCopied, GoesOnWith, HasLocals, TellsNoCopy, kept_in, silent};
ghost use Rattle.session_state.specs.Rounds.Rounds.{left_in, parts_in, IsRoundAt, IsRightRound, IsStoppedRound};

use crate::search_rounds::descent::{descended, led_by};
use crate::search_rounds::round::{RoundEnd, scenario_in};
use cnf_core::Clause;
use refutation_check::{LocalClauses, Log, Part};
use rel_formula::Scenario;
use sat_core::{Answer, KeptSearch, SavedPhases, StepCount, Trail};
use std::alloc::{AllocError, Global};
use translation::Translation;
use translation_rules::laws::local_clauses_say_what_is_left;
use translation_rules::local_clauses::absence_in;

/// A round by a search that is gone on with, which is one at the floor with these scenarios blocked, and behind a copy at the floor with
/// the copy blocked too. Where nothing is left to be found the first part tells a refutation; where the budget is spent, or the copy can't
/// be blocked while these steps are kept, it tells all that the search keeps; else none of it. The search keeps no more steps than are left
/// of the budget.
pub(crate) fn round_on(
    alloc: Global,
    translation: &Translation,
    base: &Trail,
    trail: &mut Trail,
    search: &mut KeptSearch,
    local: &mut LocalClauses,
    pool: &Log,
    floor: &Scenario,
    shown: &[Scenario],
    blocked: &[Scenario],
    budget: u64,
    leaning: &mut SavedPhases,
    count: &mut StepCount,
) -> Result<RoundEnd, AllocError>
    requires base { IsBase translation.now.cnf base.now }
    requires local { local.old ≡ locals_at translation.now floor.now blocked.now }
    requires trail { IsOver translation.now.cnf trail.old }
    requires going { IsGoing translation.now pool.now floor.now blocked.now search.old }
    requires kept { length search.old.steps ≤ budget }
    requires import { IsImport translation.now pool.now }
    requires floor { AreCells translation.now.problem floor.now }
    requires shown { All (Contains blocked.now) shown.now }
    requires blocked { All (AreCells translation.now.problem) blocked.now }
    requires few { length blocked.now + budget ≤ 200000000 }
    requires budget { budget ≤ 100000000 }
    ensures trail { OnOk result (IsOver translation.now.cnf trail.new) }
    ensures parts { IfOk result (λ end. IsRoundAt translation.now pool.now floor.now blocked.now budget (parts_in end)) }
    ensures answer { IfOk result (IsRightRound translation.now pool.now floor.now shown.now blocked.now budget) }
    ensures stopped { IfOk result (IsStoppedRound translation.now pool.now floor.now shown.now blocked.now) }
    ensures going { IfOk result (GoesOnWith translation.now pool.now floor.now blocked.now search.new) }
    ensures local { IfOk result (HasLocals translation.now floor.now blocked.now local.new) }
    ensures spent { count.new + length search.old.steps ≤ count.old + budget }
    ensures left { IfOk result (λ end. count.new + length search.old.steps + left_in end ≤ count.old + budget + kept_in search.new end) }
{
    let end = round_by(
        alloc,
        translation,
        base,
        trail,
        search,
        local,
        pool,
        floor,
        shown,
        blocked,
        budget,
        leaning,
        count,
    )?;
    match end {
        RoundEnd::Copy {
            scenario,
            parts,
            left,
        } => copied(
            alloc,
            translation,
            base,
            search,
            local,
            pool,
            floor,
            blocked,
            scenario,
            parts,
            left,
        ),
        RoundEnd::Due { scenario, parts } => Ok(RoundEnd::Due { scenario, parts }),
        RoundEnd::Refuted { part } => Ok(RoundEnd::Refuted { part }),
        RoundEnd::Spent { parts } => Ok(RoundEnd::Spent { parts }),
    }
}

/// A round by a search that is gone on with, which is one at the floor with these scenarios blocked, and stays so. Where nothing is left to
/// be found the first part tells a refutation, and where the budget is spent all that the search keeps; else none of it. Behind a copy what
/// is kept is left of the budget too.
pub(crate) fn round_by(
    alloc: Global,
    translation: &Translation,
    base: &Trail,
    trail: &mut Trail,
    search: &mut KeptSearch,
    local: &mut LocalClauses,
    pool: &Log,
    floor: &Scenario,
    shown: &[Scenario],
    blocked: &[Scenario],
    budget: u64,
    leaning: &mut SavedPhases,
    count: &mut StepCount,
) -> Result<RoundEnd, AllocError>
    requires base { IsBase translation.now.cnf base.now }
    requires local { local.old ≡ locals_at translation.now floor.now blocked.now }
    requires trail { IsOver translation.now.cnf trail.old }
    requires going { IsGoing translation.now pool.now floor.now blocked.now search.old }
    requires kept { length search.old.steps ≤ budget }
    requires import { IsImport translation.now pool.now }
    requires floor { AreCells translation.now.problem floor.now }
    requires shown { All (Contains blocked.now) shown.now }
    requires blocked { All (AreCells translation.now.problem) blocked.now }
    requires few { length blocked.now + budget ≤ 200000000 }
    requires budget { budget ≤ 100000000 }
    ensures trail { OnOk result (IsOver translation.now.cnf trail.new) }
    ensures parts { IfOk result (λ end. IsRoundAt translation.now pool.now floor.now blocked.now budget (parts_in end)) }
    ensures answer { IfOk result (IsRightRound translation.now pool.now floor.now shown.now blocked.now budget) }
    ensures stopped { IfOk result (IsStoppedRound translation.now pool.now floor.now shown.now blocked.now) }
    ensures going { OnOk result (IsGoing translation.now pool.now floor.now blocked.now search.new) }
    ensures local { OnOk result (local.new ≡ locals_at translation.now floor.now blocked.now) }
    ensures untold { IfOk result (TellsNoCopy translation.now pool.now floor.now shown.now blocked.now budget search.new) }
    ensures most { OnOk result (length search.new.steps ≤ budget) }
    ensures spent { count.new + length search.old.steps ≤ count.old + budget }
    ensures left { IfOk result (λ end. count.new + length search.old.steps + left_in end ≤ count.old + budget + kept_in search.new end) }
{
    local_clauses_say_what_is_left();
    let problem = translation.problem();
    let _ = problem.relations(); // for the proof
    let _ = floor.numbers(); // for the proof
    let cnf = translation.cnf();
    match search.go_on(
        alloc,
        cnf,
        base,
        pool,
        local.as_slice(),
        budget,
        leaning,
        count,
    )? {
        Answer::Found { valuation, log } => {
            let start = scenario_in(alloc, problem.cells(), &valuation)?;
            let part = local.part(alloc, log)?;
            gone_down(
                alloc,
                translation,
                base,
                trail,
                search,
                pool,
                floor,
                shown,
                blocked,
                part,
                &start,
                budget,
                count,
            )
        }
        Answer::Refuted { log } => {
            let part = local.part(alloc, log)?;
            Ok(RoundEnd::Refuted { part })
        }
        Answer::Spent { log } => {
            let part = local.part(alloc, log)?;
            let parts = vec![in alloc; part]?;
            Ok(RoundEnd::Spent { parts })
        }
    }
}

// The end of a round whose search found this start, and whose first part tells nothing of what is kept.
fn gone_down(
    alloc: Global,
    translation: &Translation,
    base: &Trail,
    trail: &mut Trail,
    search: &KeptSearch,
    pool: &Log,
    floor: &Scenario,
    shown: &[Scenario],
    blocked: &[Scenario],
    part: Part,
    start: &Scenario,
    budget: u64,
    count: &mut StepCount,
) -> Result<RoundEnd, AllocError>
    requires base { IsBase translation.now.cnf base.now }
    requires trail { IsOver translation.now.cnf trail.old }
    requires going { IsGoing translation.now pool.now floor.now blocked.now search.now }
    requires kept { length search.now.steps ≤ budget }
    requires import { IsImport translation.now pool.now }
    requires floor { AreCells translation.now.problem floor.now }
    requires shown { All (Contains blocked.now) shown.now }
    requires budget { budget ≤ 100000000 }
    requires short { length (locals_at translation.now floor.now blocked.now) + budget ≤ 2 ^ 28 }
    requires part { part ≡ silent translation.now floor.now blocked.now }
    requires start { IsLeft translation.now.problem floor.now blocked.now start.now }
    requires open { (hints : List ℕ) → ¬ IsChain (members_of (translation.now.cnf.clauses ++ locals_at translation.now floor.now blocked.now) pool.now) [] hints }
    ensures trail { OnOk result (IsOver translation.now.cnf trail.new) }
    ensures parts { IfOk result (λ end. IsRoundAt translation.now pool.now floor.now blocked.now budget (parts_in end)) }
    ensures answer { IfOk result (IsRightRound translation.now pool.now floor.now shown.now blocked.now budget) }
    ensures stopped { IfOk result (IsStoppedRound translation.now pool.now floor.now shown.now blocked.now) }
    ensures untold { IfOk result (TellsNoCopy translation.now pool.now floor.now shown.now blocked.now budget search.now) }
    ensures spent { count.new + length search.now.steps ≤ count.old + budget }
    ensures left { IfOk result (λ end. count.new + length search.now.steps + left_in end ≤ count.old + budget + kept_in search.now end) }
{
    let left = budget - search.len();
    let end = descended(
        alloc,
        translation,
        base,
        trail,
        pool,
        floor,
        shown,
        part,
        start,
        left,
        count,
    )?;
    behind(
        alloc,
        translation,
        search,
        pool,
        floor,
        shown,
        blocked,
        start,
        left,
        budget,
        end,
    )
}

// The end of a round whose first part tells nothing of what is kept, and whose descent had this left: behind a copy what is kept is left too,
// and where the budget is spent, the first part tells it.
fn behind(
    alloc: Global,
    translation: &Translation,
    search: &KeptSearch,
    pool: &Log,
    floor: &Scenario,
    shown: &[Scenario],
    blocked: &[Scenario],
    start: &Scenario,
    left: u64,
    budget: u64,
    end: RoundEnd,
) -> Result<RoundEnd, AllocError>
    requires going { IsGoing translation.now pool.now floor.now blocked.now search.now }
    requires budget { budget ≤ 100000000 }
    requires short { length (locals_at translation.now floor.now blocked.now) + budget ≤ 2 ^ 28 }
    requires start { IsLeft translation.now.problem floor.now blocked.now start.now }
    requires open { (hints : List ℕ) → ¬ IsChain (members_of (translation.now.cnf.clauses ++ locals_at translation.now floor.now blocked.now) pool.now) [] hints }
    requires room { length search.now.steps + left ≡ budget }
    requires down { DescendsTo translation.now pool.now floor.now shown.now (silent translation.now floor.now blocked.now) start.now left end }
    ensures parts { IfOk result (λ end. IsRoundAt translation.now pool.now floor.now blocked.now budget (parts_in end)) }
    ensures answer { IfOk result (IsRightRound translation.now pool.now floor.now shown.now blocked.now budget) }
    ensures stopped { IfOk result (IsStoppedRound translation.now pool.now floor.now shown.now blocked.now) }
    ensures untold { IfOk result (TellsNoCopy translation.now pool.now floor.now shown.now blocked.now budget search.now) }
    ensures left { IfOk result (λ after. left_in after ≤ left_in end + kept_in search.now after) }
{
    let _translation = translation; // for the proof
    let _pool = pool; // for the proof
    let _floor = floor; // for the proof
    let _shown = shown; // for the proof
    let _blocked = blocked; // for the proof
    let _start = start; // for the proof
    let _left = left; // for the proof
    let _budget = budget; // for the proof
    match end {
        RoundEnd::Copy {
            scenario,
            parts,
            left: rest,
        } => {
            let left = rest + search.len();
            Ok(RoundEnd::Copy {
                scenario,
                parts,
                left,
            })
        }
        RoundEnd::Spent { parts } => {
            let parts = told(alloc, search, parts)?;
            Ok(RoundEnd::Spent { parts })
        }
        RoundEnd::Due { scenario, parts } => Ok(RoundEnd::Due { scenario, parts }),
        RoundEnd::Refuted { part } => Ok(RoundEnd::Refuted { part }),
    }
}

// The end of a round with a copy, which is blocked, when so much is left with what is kept: this is left for the rounds to come, or the first
// part tells it.
fn copied(
    alloc: Global,
    translation: &Translation,
    base: &Trail,
    search: &mut KeptSearch,
    local: &mut LocalClauses,
    pool: &Log,
    floor: &Scenario,
    blocked: &[Scenario],
    scenario: Scenario,
    parts: Vec<Part>,
    left: u64,
) -> Result<RoundEnd, AllocError>
    requires base { IsBase translation.now.cnf base.now }
    requires local { local.old ≡ locals_at translation.now floor.now blocked.now }
    requires going { IsGoing translation.now pool.now floor.now blocked.now search.old }
    requires import { IsImport translation.now pool.now }
    requires floor { AreCells translation.now.problem floor.now }
    requires copy { AreCells translation.now.problem scenario }
    requires kept { length search.old.steps ≤ left }
    requires few { length blocked.now + left < 200000000 }
    requires parts { (rest : List Parted) × (parts.items ≡ silent translation.now floor.now blocked.now ∷ rest) }
    ensures { IfOk result (λ end. (rest : List Parted) → parts.items ≡ silent translation.now floor.now blocked.now ∷ rest → IsCopied translation.now pool.now floor.now blocked.now search.old search.new local.new scenario rest left end) }
{
    let problem = translation.problem();
    let _ = problem.relations(); // for the proof
    let _ = floor.numbers(); // for the proof
    if is_blocked_too(
        alloc,
        translation,
        search,
        local,
        pool,
        floor,
        blocked,
        &scenario,
    )? {
        return Ok(RoundEnd::Copy {
            scenario,
            parts,
            left,
        });
    }
    let left = left - search.len();
    let parts = told(alloc, search, parts)?;
    *search = anew(alloc, translation, base, pool, floor, local.as_slice())?;
    Ok(RoundEnd::Copy {
        scenario,
        parts,
        left,
    })
}

/// Adds the clause of one scenario more, and blocks it where that can be done while these steps are kept. Whether it is blocked; else the
/// search is left as it was. The error comes only for want of memory.
pub(crate) fn is_blocked_too(
    alloc: Global,
    translation: &Translation,
    search: &mut KeptSearch,
    local: &mut LocalClauses,
    pool: &Log,
    floor: &Scenario,
    blocked: &[Scenario],
    scenario: &Scenario,
) -> Result<bool, AllocError>
    requires local { local.old ≡ locals_at translation.now floor.now blocked.now }
    requires going { IsGoing translation.now pool.now floor.now blocked.now search.old }
    requires import { IsImport translation.now pool.now }
    requires floor { AreCells translation.now.problem floor.now }
    requires scenario { AreCells translation.now.problem scenario.now }
    requires few { length blocked.now + length search.old.steps < 200000000 }
    ensures local { OnOk result (local.new ≡ locals_at translation.now floor.now (blocked.now ++ scenario.now ∷ [])) }
    ensures blocked { IfOk result (λ is. MatchBool is (IsGoing translation.now pool.now floor.now (blocked.now ++ scenario.now ∷ []) search.new) (search.new ≡ search.old)) }
    ensures steps { OnOk result (search.new.steps ≡ search.old.steps) }
{
    let problem = translation.problem();
    let _ = problem.relations(); // for the proof
    let _ = floor.numbers(); // for the proof
    let cnf = translation.cnf();
    let clause = absence_in(alloc, scenario.numbers())?;
    let place = local.as_slice().len() as u32;
    let is_blocked = search.block(alloc, cnf, pool, local.as_slice(), place, &clause)?;
    local.push(clause)?;
    Ok(is_blocked)
}

/// A search that has learnt nothing yet, over the local clauses at the floor with some scenarios blocked, at most 200,000,000. The error
/// comes only for want of memory.
pub(crate) fn anew(
    alloc: Global,
    translation: &Translation,
    base: &Trail,
    pool: &Log,
    floor: &Scenario,
    local: &[Clause],
) -> Result<KeptSearch, AllocError>
    requires base { IsBase translation.now.cnf base.now }
    requires import { IsImport translation.now pool.now }
    requires floor { AreCells translation.now.problem floor.now }
    requires local { (blocked : List (List ℕ)) × (local.now ≡ locals_at translation.now floor.now blocked) × (length blocked ≤ 200000000) }
    ensures kept { IfOk result (IsKept translation.now.cnf local.now pool.now) }
    ensures none { IfOk result (λ k. k.steps ≡ []) }
{
    let problem = translation.problem();
    let _ = problem.relations(); // for the proof
    let _ = floor.numbers(); // for the proof
    KeptSearch::over(alloc, translation.cnf(), base, pool, local)
}

// These parts, the first of which tells what is kept.
fn told(alloc: Global, search: &KeptSearch, parts: Vec<Part>) -> Result<Vec<Part>, AllocError>
    requires within { AreWithin (length search.now.numbers) search.now.steps }
    requires parts { (first : Parted) × (rest : List Parted) × (parts.items ≡ first ∷ rest) × (length first.local + length search.now.steps ≤ 2 ^ 28) }
    ensures { IfOk result (λ all. (first : Parted) → (rest : List Parted) → parts.items ≡ first ∷ rest → all.items ≡ record { local = first.local; log = kept_log search.now } ∷ rest) }
{
    let mut rest = parts;
    let first = rest.remove(0);
    let log = search.told(alloc)?;
    led_by(alloc, first.with_log(log), rest)
}
