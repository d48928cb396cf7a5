// Steps of a session over the hub.
ghost use Rattle.std.specs.Prelude.{◌≡◌, ◌⊎◌, ◌≤◌, ◌+◌, ℕ, length, IfOk, OnOk};
ghost use Rattle.script_format.specs.Limits.{IsAllowed};
ghost use Rattle.script_format.specs.Reading.{asks_step};
ghost use Rattle.session_words.specs.declared.commands.Command.TheVariants.{Step as ToStep};
ghost use Rattle.session_rules.specs.States.{top_floor};
ghost use Rattle.session_state.specs.Sessions.Fits.{FitsProblem};
ghost use Rattle.session_state.specs.Sessions.Proposed.{NeedsTranslation};
ghost use Rattle.session_turns.specs.Serving.{IsPrintable};
ghost use Rattle.hub_state.specs.Journal.Journal.{IsPublished};
ghost use Rattle.hub_turns.specs.Turned.{IsIdle, WentOn};
ghost use Rattle.session_turns.specs.Added.{HasBegun, HasProposed, HasAnswered};
ghost use Rattle.session_turns.specs.Allowed.{cost_of_step};
ghost use Rattle.session_turns.specs.Seated.{IsSeated, BeginsPool};

use crate::settling::settle;
use crate::sharing::share_parts;
use hub_lock::{Pass, Turns};
use hub_state::Hub;
use hub_turns::import;
use refutation_check::Log;
use script_text::proof_lines::laws::covered_scenarios_are_cells;
use session_rules::Reply;
use session_rules::laws::{
    a_run_is_sound, memory_changes_nothing, nothing_done_is_work, one_floor_is_asked_for,
};
use session_state::search_rounds::StepCount;
use session_state::session_search::{Proposal, Session, needs_translation};
use session_words::Step;
use std::alloc::{AllocError, Global};
use std::sync::Wait;
use translation::Translation;

/// Answers a step, and takes the answer in once it is recorded. After want of memory the session is as before, and nothing is
/// recorded. What the session has of its key's pool is what it imported so far.
pub(crate) fn take_step<R: Wait>(
    rt: &R,
    alloc: Global,
    lock: &Turns<Hub>,
    pass: &mut Pass<Hub>,
    session: &mut Session,
    pool: &mut Log,
    translation: &Translation,
    step: &Step,
    count: &mut StepCount,
) -> Reply
    requires seated { IsSeated lock.now translation.now 20000 pass.old session.old }
    requires begins { BeginsPool pool.old pass.old session.old }
    requires allowed { IsAllowed (ToStep step.now) }
    ensures goes { WentOn lock.now pass.old pass.new }
    ensures answered { HasAnswered translation.now pass.old pass.new session.old session.new step.now result }
    ensures printable { IsPrintable translation.now (top_floor session.old.kept.state) result }
    ensures seated { (shown : ℕ) → IsSeated lock.now translation.now shown pass.old session.old → IsSeated lock.now translation.now (shown + asks_step step.now) pass.new session.new }
    ensures key { session.new.key ≡ session.old.key }
    ensures spent { count.new ≤ count.old + cost_of_step session.old.kept.state.budget step.now }
    ensures begins { BeginsPool pool.new pass.new session.new }
{
    a_run_is_sound();
    memory_changes_nothing();
    covered_scenarios_are_cells();
    match proposed(
        rt,
        alloc,
        lock,
        pass,
        session,
        pool,
        translation,
        step,
        count,
    ) {
        Ok(proposal) => settle(rt, alloc, lock, pass, session, step, proposal),
        Err(_) => Reply::Memory,
    }
}

// What the session proposes for a step, with what comes before its record.
fn proposed<R: Wait>(
    rt: &R,
    alloc: Global,
    lock: &Turns<Hub>,
    pass: &mut Pass<Hub>,
    session: &mut Session,
    pool: &mut Log,
    translation: &Translation,
    step: &Step,
    count: &mut StepCount,
) -> Result<Proposal, AllocError>
    requires idle { IsIdle lock.now pass.old }
    requires published { IsPublished pass.old.view.seen session.old.key translation.now }
    requires begins { BeginsPool pool.old pass.old session.old }
    requires fits { FitsProblem translation.now.problem session.old.kept }
    requires few_shown { length session.old.kept.state.shown ≤ 20000 }
    requires allowed { IsAllowed (ToStep step.now) }
    ensures goes { WentOn lock.now pass.old pass.new }
    ensures begun { OnOk result (HasBegun pass.old pass.new step.now session.old) }
    ensures cut { (pass.new.view.own ≡ pass.old.view.own) ⊎ HasBegun pass.old pass.new step.now session.old }
    ensures proposal { IfOk result (HasProposed translation.now pass.new session.old step.now) }
    ensures same { session.new ≡ session.old }
    ensures begins { BeginsPool pool.new pass.new session.old }
    ensures spent { count.new ≤ count.old + cost_of_step session.old.kept.state.budget step.now }
{
    nothing_done_is_work();
    if needs_translation(step) {
        return searched(
            rt,
            alloc,
            lock,
            pass,
            session,
            pool,
            translation,
            step,
            count,
        );
    }
    session.propose(alloc, translation, pool, step, count)
}

// What the session proposes for a step that a search answers: what came into the key's pool since it imported last is imported
// first, and what the search found out that rests on the translation alone is shared.
fn searched<R: Wait>(
    rt: &R,
    alloc: Global,
    lock: &Turns<Hub>,
    pass: &mut Pass<Hub>,
    session: &mut Session,
    pool: &mut Log,
    translation: &Translation,
    step: &Step,
    count: &mut StepCount,
) -> Result<Proposal, AllocError>
    requires idle { IsIdle lock.now pass.old }
    requires published { IsPublished pass.old.view.seen session.old.key translation.now }
    requires begins { BeginsPool pool.old pass.old session.old }
    requires fits { FitsProblem translation.now.problem session.old.kept }
    requires few_shown { length session.old.kept.state.shown ≤ 20000 }
    requires asked { NeedsTranslation step.now }
    ensures goes { WentOn lock.now pass.old pass.new }
    ensures begun { OnOk result (HasBegun pass.old pass.new step.now session.old) }
    ensures cut { (pass.new.view.own ≡ pass.old.view.own) ⊎ HasBegun pass.old pass.new step.now session.old }
    ensures proposal { IfOk result (HasProposed translation.now pass.new session.old step.now) }
    ensures same { session.new ≡ session.old }
    ensures begins { BeginsPool pool.new pass.new session.old }
    ensures spent { count.new ≤ count.old + session.old.kept.state.budget }
{
    one_floor_is_asked_for();
    let _ = translation.problem().relations(); // for the proof
    let key = session.key();
    import(rt, alloc, lock, pass, key, pool)?;
    let proposal = session.propose(alloc, translation, pool, step, count)?;
    share_parts(
        rt,
        alloc,
        lock,
        pass,
        key,
        translation,
        pool,
        proposal.parts(),
    )?;
    Ok(proposal)
}
