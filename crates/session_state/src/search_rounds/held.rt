// A search that is held from round to round.
ghost use Rattle.std.specs.Prelude.{◌≡◌, ◌<◌, ◌≤◌, ◌+◌, ◌++◌, ◌∷◌, [], length, All, Contains, IfOk, OnOk};
ghost use Rattle.rel_formula.specs.Instance.{AreCells};
ghost use Rattle.sat_trail.specs.Trailed.{IsBase};
ghost use Rattle.translation_rules.specs.Imports.{IsImport};
ghost use Rattle.translation_rules.specs.Locals.{locals_of as locals_at};
ghost use Rattle.session_state.specs.Rounds.Going.{IsGoing};
ghost use Rattle.session_state.specs.Rounds.Held.{IsHeldAt};
ghost use Rattle.session_state.specs.Rounds.Rounds.{parts_in, IsRoundAt, IsRightRound, IsStoppedRound};

use crate::search_rounds::going::{anew, is_blocked_too, round_by};
use crate::search_rounds::locals::locals_of;
use crate::search_rounds::round::RoundEnd;
use cnf_core::Clause;
use refutation_check::{LocalClauses, Log};
use rel_formula::Scenario;
use sat_core::{KeptSearch, SavedPhases, StepCount, Trail};
use std::alloc::{AllocError, Global};
use translation::Translation;

/// A search at a floor with scenarios blocked, by which rounds go on: it is made once, and each scenario more is blocked in it. Nothing is
/// compared and nothing made again, so the translation, the pool and the floor must be the same in all calls.
pub struct HeldSearch {
    base: Trail,
    descents: Trail,
    search: KeptSearch,
    local: LocalClauses,
    leaning: SavedPhases,
}

// By hand, so that a caller's proof has one step wherever one is dropped.
impl Drop for HeldSearch {
    fn drop(self) {
        let HeldSearch {
            base: _,
            descents: _,
            search: _,
            local: _,
            leaning: _,
        } = self;
    }
}

impl HeldSearch {
    /// A search at the floor with these scenarios blocked, of which nothing was learnt yet, and which leans to these values at first. The
    /// pool is an accepted log over the translation's clauses, of at most 20,000 steps; the scenarios are at most 200,000,000. The error
    /// comes only for want of memory.
    pub fn at(
        alloc: Global,
        translation: &Translation,
        pool: &Log,
        floor: &Scenario,
        blocked: &[Scenario],
        leaning: SavedPhases,
    ) -> Result<HeldSearch, AllocError>
        requires import { IsImport translation.now pool.now }
        requires floor { AreCells translation.now.problem floor.now }
        requires blocked { All (AreCells translation.now.problem) blocked.now }
        requires few { length blocked.now ≤ 200000000 }
        ensures { IfOk result (IsHeldAt translation.now pool.now floor.now blocked.now) }
    {
        let clauses = locals_of(alloc, translation, floor, blocked)?;
        let local = LocalClauses::of(alloc, clauses)?;
        let base = Trail::over(alloc, translation.cnf(), translation.vars())?;
        let descents = base.copy(alloc)?;
        let search = anew(alloc, translation, &base, pool, floor, local.as_slice())?;
        Ok(HeldSearch {
            base,
            descents,
            search,
            local,
            leaning,
        })
    }

    /// Blocks one scenario more than these, which are fewer than 100,000,000. Where it can't be blocked while the search keeps what it has
    /// learnt, that is forgotten. The error comes only for want of memory.
    pub fn block(
        &mut self,
        alloc: Global,
        translation: &Translation,
        pool: &Log,
        floor: &Scenario,
        blocked: &[Scenario],
        scenario: &Scenario,
    ) -> Result<(), AllocError>
        requires held { IsHeldAt translation.now pool.now floor.now blocked.now self.old }
        requires import { IsImport translation.now pool.now }
        requires floor { AreCells translation.now.problem floor.now }
        requires scenario { AreCells translation.now.problem scenario.now }
        requires few { length blocked.now < 100000000 }
        ensures { OnOk result (IsHeldAt translation.now pool.now floor.now (blocked.now ++ scenario.now ∷ []) self.new) }
    {
        block_too(
            alloc,
            translation,
            &self.base,
            &mut self.search,
            &mut self.local,
            pool,
            floor,
            blocked,
            scenario,
        )?;
        Ok(())
    }

    /// One round at the floor: a search with all that was shown and more scenarios blocked, and the descent from what it finds.
    ///
    /// The blocked scenarios are at most 200,000,000 together with the budget, which is at most 100,000,000. The round takes at most `budget`
    /// novel steps, and exactly so many where it answers `Spent`; its searches raise the count by no more. It begins with what was learnt
    /// where that is no more than half of the budget, and else forgets it. The same scenarios stay blocked, and no more. The error comes
    /// only for want of memory.
    pub fn round(
        &mut self,
        alloc: Global,
        translation: &Translation,
        pool: &Log,
        floor: &Scenario,
        shown: &[Scenario],
        blocked: &[Scenario],
        budget: u64,
        count: &mut StepCount,
    ) -> Result<RoundEnd, AllocError>
        requires held { IsHeldAt translation.now pool.now floor.now blocked.now self.old }
        requires import { IsImport translation.now pool.now }
        requires floor { AreCells translation.now.problem floor.now }
        requires shown { All (Contains blocked.now) shown.now }
        requires blocked { All (AreCells translation.now.problem) blocked.now }
        requires few { length blocked.now + budget ≤ 200000000 }
        requires budget { budget ≤ 100000000 }
        ensures parts { IfOk result (λ end. IsRoundAt translation.now pool.now floor.now blocked.now budget (parts_in end)) }
        ensures answer { IfOk result (IsRightRound translation.now pool.now floor.now shown.now blocked.now budget) }
        ensures stopped { IfOk result (IsStoppedRound translation.now pool.now floor.now shown.now blocked.now) }
        ensures held { OnOk result (IsHeldAt translation.now pool.now floor.now blocked.now self.new) }
        ensures spent { count.new ≤ count.old + budget }
    {
        forget(
            alloc,
            translation,
            &self.base,
            &mut self.search,
            self.local.as_slice(),
            pool,
            floor,
            blocked,
            budget / 2,
        )?;
        let end = round_by(
            alloc,
            translation,
            &self.base,
            &mut self.descents,
            &mut self.search,
            &mut self.local,
            pool,
            floor,
            shown,
            blocked,
            budget,
            &mut self.leaning,
            count,
        )?;
        Ok(end)
    }
}

// Blocks one scenario more; where it can't be blocked while these steps are kept, the search begins anew.
fn block_too(
    alloc: Global,
    translation: &Translation,
    base: &Trail,
    search: &mut KeptSearch,
    local: &mut LocalClauses,
    pool: &Log,
    floor: &Scenario,
    blocked: &[Scenario],
    scenario: &Scenario,
) -> Result<(), AllocError>
    requires base { IsBase translation.now.cnf base.now }
    requires local { local.old ≡ locals_at translation.now floor.now blocked.now }
    requires going { IsGoing translation.now pool.now floor.now blocked.now search.old }
    requires kept { length search.old.steps ≤ 100000000 }
    requires import { IsImport translation.now pool.now }
    requires floor { AreCells translation.now.problem floor.now }
    requires scenario { AreCells translation.now.problem scenario.now }
    requires few { length blocked.now < 100000000 }
    ensures local { OnOk result (local.new ≡ locals_at translation.now floor.now (blocked.now ++ scenario.now ∷ [])) }
    ensures going { OnOk result (IsGoing translation.now pool.now floor.now (blocked.now ++ scenario.now ∷ []) search.new) }
    ensures few { OnOk result (length search.new.steps ≤ 100000000) }
{
    if is_blocked_too(
        alloc,
        translation,
        search,
        local,
        pool,
        floor,
        blocked,
        scenario,
    )? {
        return Ok(());
    }
    *search = anew(alloc, translation, base, pool, floor, local.as_slice())?;
    Ok(())
}

// The search begins anew where it keeps more than so many steps.
fn forget(
    alloc: Global,
    translation: &Translation,
    base: &Trail,
    search: &mut KeptSearch,
    local: &[Clause],
    pool: &Log,
    floor: &Scenario,
    blocked: &[Scenario],
    most: u64,
) -> Result<(), AllocError>
    requires base { IsBase translation.now.cnf base.now }
    requires local { local.now ≡ locals_at translation.now floor.now blocked.now }
    requires going { IsGoing translation.now pool.now floor.now blocked.now search.old }
    requires import { IsImport translation.now pool.now }
    requires floor { AreCells translation.now.problem floor.now }
    requires few { length blocked.now ≤ 200000000 }
    ensures going { OnOk result (IsGoing translation.now pool.now floor.now blocked.now search.new) }
    ensures few { OnOk result (length search.new.steps ≤ most) }
{
    let _blocked = blocked; // for the proof
    if search.len() <= most {
        return Ok(());
    }
    *search = anew(alloc, translation, base, pool, floor, local)?;
    Ok(())
}
