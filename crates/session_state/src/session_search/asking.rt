// The step that asks for the next scenario.
ghost use Rattle.std.specs.Prelude.{◌≡◌, ◌≤◌, ◌<◌, ◌+◌, ◌^◌, [], List, ℕ, All, Contains, IfOk, IsTrue, length};
ghost use Rattle.refutation_check.specs.declared.log.Step.{Step as LogStep};
ghost use Rattle.rel_formula.specs.Instance.{AreCells};
ghost use Rattle.swap_symmetry.specs.Due.{IsDue};
ghost use Rattle.translation_rules.specs.Imports.{IsImport};
ghost use Rattle.translation_rules.specs.Translation.{Translated};
ghost use Rattle.session_rules.specs.States.{State, HasEndedWith, has_ended, shown_here, top_floor};
ghost use Rattle.session_rules.specs.Proofs.{IsCopy};
ghost use Rattle.session_words.specs.declared.steps.Step.TheVariants.{Next};
ghost use Rattle.session_state.specs.Sessions.Fits.{FitsProblem, IsKept};
ghost use Rattle.session_state.specs.Sessions.Proposed.{IsProposal};
ghost use Rattle.session_state.specs.Store.Stored.{copies_at};
ghost use Rattle.session_state.specs.Sessions.Replied.{reply_to};

use crate::search_rounds::{Found, KeptTrails, NextAt, StepCount, next_at};
use crate::session_search::answer::{Proposal, at_once, spent, with_copies};
use crate::session_store::SessionStore;
use refutation_check::Log;
use rel_formula::Scenario;
use session_rules::laws::{a_run_is_sound, nothing_done_is_work};
use session_rules::{EndProof, Reply};
use std::alloc::{AllocError, Global};
use translation::Translation;

/// What a session proposes where it is asked for the next scenario.
pub(crate) fn next(
    alloc: Global,
    store: &SessionStore,
    translation: &Translation,
    pool: &Log,
    trails: &mut KeptTrails,
    count: &mut StepCount,
) -> Result<Proposal, AllocError>
    requires fits { FitsProblem translation.now.problem store.now }
    requires kept { IsKept store.now }
    requires room { length store.now.state.shown ≤ 99000000 }
    requires import { IsImport translation.now pool.now }
    ensures proposal { IfOk result (IsProposal translation.now pool.now store.now.state Next) }
    ensures new { IfOk result (λ p. All (λ copy. ¬ Contains (copies_at (top_floor store.now.state) store.now) copy) p.copies) }
    ensures spent { count.new ≤ count.old + store.now.state.budget }
{
    a_run_is_sound();
    let shown = store.shown_here(alloc)?;
    match store.proof() {
        Some(proof) => end_again(alloc, shown.as_slice(), proof),
        None => {
            let copies = store.copies_here(alloc)?;
            look_for(
                alloc,
                translation,
                pool,
                store.floor(),
                shown.as_slice(),
                copies.as_slice(),
                store.budget(),
                trails,
                count,
            )
        }
    }
}

// The end of a floor that has ended with this proof, and at which these scenarios were shown.
fn end_again(alloc: Global, shown: &[Scenario], proof: &EndProof) -> Result<Proposal, AllocError>
    requires { length shown.now < 2 ^ 32 }
    ensures proposal { IfOk result (λ p. (t : Translated) (pool : List LogStep) (s : State) → shown_here s ≡ shown.now → HasEndedWith s proof.now → IsProposal t pool s Next p) }
    ensures none { IfOk result (λ p. p.copies ≡ []) }
{
    nothing_done_is_work();
    let number = shown.len() as u32;
    let proof = proof.copy()?;
    Ok(at_once(alloc, Reply::End { number, proof }))
}

// What is proposed at a floor that has not ended, and at which these scenarios were shown.
fn look_for(
    alloc: Global,
    translation: &Translation,
    pool: &Log,
    floor: &Scenario,
    shown: &[Scenario],
    copies: &[Scenario],
    budget: u32,
    trails: &mut KeptTrails,
    count: &mut StepCount,
) -> Result<Proposal, AllocError>
    requires import { IsImport translation.now pool.now }
    requires floor { AreCells translation.now.problem floor.now }
    requires shown { All (IsDue translation.now.problem floor.now) shown.now }
    requires copies { All (IsCopy translation.now.problem floor.now shown.now) copies.now }
    requires few { length shown.now + length copies.now ≤ 100000000 }
    requires budget { budget ≤ 100000 }
    ensures proposal { IfOk result (λ p. (s : State) → ¬ IsTrue (has_ended (top_floor s) s) → top_floor s ≡ floor.now → shown_here s ≡ shown.now → s.budget ≡ budget → IsProposal translation.now pool.now s Next p) }
    ensures new { IfOk result (λ p. All (λ copy. ¬ Contains copies.now copy) p.copies) }
    ensures spent { count.new ≤ count.old + budget }
{
    let next = next_at(
        alloc,
        translation,
        pool,
        floor,
        shown,
        copies,
        budget as u64,
        trails,
        count,
    )?;
    proposal_of(alloc, shown.len() as u32, budget, next)
}

// The proposal of what was found where so many scenarios were shown.
fn proposal_of(alloc: Global, shown: u32, budget: u32, next: NextAt) -> Result<Proposal, AllocError>
    requires shown { shown < 2 ^ 31 }
    requires few { length next.copies ≤ 100000 }
    ensures { IfOk result (λ p. p ≡ record { reply = reply_to shown budget next.parts next.copies next.found; parts = next.parts; copies = next.copies }) }
{
    let NextAt {
        found,
        parts,
        copies,
    } = next;
    match found {
        Found::Shown { scenario } => {
            let number = shown + 1;
            let reply = Reply::Shown { number, scenario };
            Ok(with_copies(reply, parts, copies))
        }
        Found::Ended { proof } => {
            let number = shown;
            let reply = Reply::End { number, proof };
            Ok(with_copies(reply, parts, copies))
        }
        Found::Spent => spent(alloc, budget, parts, copies),
    }
}
