// What a search shares: the free steps of its parts.
ghost use Rattle.std.specs.Prelude.{◌≡◌, ◌≤◌, List, All, length, IfOk, OnOk};
ghost use Rattle.refutation_check.specs.Chain.{members_of, IsAccepted};
ghost use Rattle.refutation_check.specs.SearchLog.{IsSearchLog};
ghost use Rattle.translation_rules.specs.Parts.{AreSearched, given_to};
ghost use Rattle.hub_state.specs.Journal.Noted.{Note};
ghost use Rattle.hub_state.specs.Journal.Journal.{HasImported};
ghost use Rattle.hub_turns.specs.Groups.{AreShared, SharesItsSteps, free_in};
ghost use Rattle.hub_turns.specs.Turned.{IsIdle, WentOn};
ghost use Rattle.session_turns.specs.Added.{HasAddedAll};

use clause_pool::{accepted_hints_name_members, free_of};
use hub_lock::{Pass, Turns};
use hub_state::Hub;
use hub_turns::share;
use refutation_check::{Log, Part};
use std::alloc::{AllocError, Global};
use std::sync::Wait;
use translation::Translation;

/// Shares the free steps of each part, which goes on from the pool that was imported.
pub(crate) fn share_parts<R: Wait>(
    rt: &R,
    alloc: Global,
    lock: &Turns<Hub>,
    pass: &mut Pass<Hub>,
    key: u32,
    translation: &Translation,
    pool: &Log,
    parts: &[Part],
) -> Result<(), AllocError>
    requires idle { IsIdle lock.now pass.old }
    requires imported { HasImported pass.old.view.seen pass.old.view.number key translation.now pool.now }
    requires few { length pool.now ≤ 20000 }
    requires searched { AreSearched translation.now pool.now parts.now }
    ensures goes { WentOn lock.now pass.old pass.new }
    ensures imported { HasImported pass.new.view.seen pass.old.view.number key translation.now pool.now }
    ensures added { (notes : List Note) × HasAddedAll pass.old pass.new notes × AreShared key notes }
    ensures shared { OnOk result (All (λ part. SharesItsSteps pass.new.view.seen pass.old.view.number key translation.now part.local pool.now part.log) parts.now) }
{
    for part in parts {
        share_part(rt, alloc, lock, pass, key, translation, pool, part)?;
    }
    Ok(())
}

// Shares the free steps of a part, where it has some.
#[tactic(auto, using(hub_turns::proofs::Onward::went_none, crate::proofs::Turning::shares_none))]
fn share_part<R: Wait>(
    rt: &R,
    alloc: Global,
    lock: &Turns<Hub>,
    pass: &mut Pass<Hub>,
    key: u32,
    translation: &Translation,
    pool: &Log,
    part: &Part,
) -> Result<(), AllocError>
    requires idle { IsIdle lock.now pass.old }
    requires imported { HasImported pass.old.view.seen pass.old.view.number key translation.now pool.now }
    requires few { length pool.now ≤ 20000 }
    requires searched { IsSearchLog (given_to translation.now pool.now part.now) part.now.log }
    ensures goes { WentOn lock.now pass.old pass.new }
    ensures imported { HasImported pass.new.view.seen pass.old.view.number key translation.now pool.now }
    ensures added { (notes : List Note) × HasAddedAll pass.old pass.new notes × AreShared key notes }
    ensures shared { OnOk result (SharesItsSteps pass.new.view.seen pass.old.view.number key translation.now part.now.local pool.now part.now.log) }
{
    let free = free_steps_of(alloc, translation, pool, part)?;
    if free.steps().is_empty() {
        return Ok(());
    }
    let at = pool.steps().len() as u32;
    share(rt, alloc, lock, pass, key, at, &free)?;
    Ok(())
}

// The steps of a part that rest on none of its local clauses.
fn free_steps_of(
    alloc: Global,
    translation: &Translation,
    pool: &Log,
    part: &Part,
) -> Result<Log, AllocError>
    requires few { length pool.now ≤ 20000 }
    requires searched { IsSearchLog (given_to translation.now pool.now part.now) part.now.log }
    ensures steps { IfOk result (λ free. free ≡ free_in translation.now part.now.local pool.now part.now.log) }
    ensures accepted { IfOk result (λ free. IsAccepted (members_of translation.now.cnf.clauses pool.now) free) }
{
    accepted_hints_name_members();
    let clauses = translation.cnf().len();
    let local = part.local_len() as u32;
    let at = pool.steps().len() as u32;
    free_of(alloc, part.log(), clauses, local, at)
}
