// Sessions.
ghost use Rattle.std.specs.Prelude.{◌≡◌, ◌⊎◌, ◌≤◌, ◌<◌, ◌+◌, [], List, length, All, Contains, IfOk, OnOk, OnErr};
ghost use Rattle.refutation_check.specs.declared.log.Step.{Step as LogStep};
ghost use Rattle.rel_formula.specs.Bounds.{Bounded};
ghost use Rattle.translation_rules.specs.Imports.{IsImport};
ghost use Rattle.translation_rules.specs.Translation.{Translated};
ghost use Rattle.session_words.specs.declared.steps.Step.{Step as StepType};
ghost use Rattle.session_rules.specs.States.{Start, top_floor, after};
ghost use Rattle.session_rules.specs.Transcripts.{ListsShown};
ghost use Rattle.session_state.specs.Store.Stored.{copies_after, copies_at};
ghost use Rattle.session_state.specs.Sessions.Fits.{FitsProblem};
ghost use Rattle.session_state.specs.Sessions.Proposed.{IsProposal, NeedsTranslation, IsPlain, IsPlainProposal};

use crate::search_rounds::{KeptTrails, StepCount};
use crate::session_search::answer::Proposal;
use crate::session_search::asking::next;
use crate::session_search::augmenting::augment;
use crate::session_search::listing::in_order;
use crate::session_search::offering::offer;
use crate::session_search::plain::{leave, prove, set};
use crate::session_store::SessionStore;
use refutation_check::Log;
use rel_formula::Scenario;
use session_rules::laws::a_run_is_sound;
use session_words::Step;
use std::alloc::{AllocError, Global};
use std::marker::Model;
use translation::Translation;

/// A session: its number, the key of its problem, its state, and the copies of shown scenarios that its searches found. Its
/// budget is at most 100,000, and the copies are at most 1,000,000.
#[derive(Drop)]
pub struct Session {
    owner: u32,
    key: u32,
    kept: SessionStore,
    trails: KeptTrails,
}

impl Model for Session {
    ghost use Rattle.session_state.specs.Sessions.Fits.{InSession, IsKept};

    ghost Value = { InSession };

    ghost view = { λ s. record { owner = s.owner; key = s.key; kept = s.kept } };

    ghost invariant = { λ s. IsKept s.kept };
}

impl Session {
    /// The session of this number at the start, on the problem of this key, with this budget, which is at most 100,000. It fits
    /// every problem. The error comes only for want of memory.
    pub fn new(alloc: Global, owner: u32, key: u32, budget: u32) -> Result<Session, AllocError>
        requires { budget ≤ 100000 }
        ensures start { IfOk result (λ s. s ≡ record { owner = owner; key = key; kept = record { state = Start budget; copies = []; room = 0 } }) }
        ensures fits { IfOk result (λ s. (p : Bounded) → FitsProblem p s.kept) }
    {
        let kept = SessionStore::new(alloc, budget)?;
        let trails = KeptTrails::new(alloc);
        Ok(Session {
            owner,
            key,
            kept,
            trails,
        })
    }

    /// The session's number.
    pub fn owner(&self) -> u32
        ensures { result ≡ self.now.owner }
    {
        self.owner
    }

    /// The key of the session's problem.
    pub fn key(&self) -> u32
        ensures { result ≡ self.now.key }
    {
        self.key
    }

    /// The top floor.
    pub fn floor(&self) -> &Scenario
        ensures { result.now ≡ top_floor self.now.kept.state }
    {
        self.kept.floor()
    }

    /// The scenarios that were shown at the top floor, the earlier ones first. The session fits some problem. The error comes
    /// only for want of memory.
    pub fn listed(&self, alloc: Global) -> Result<Vec<Scenario>, AllocError>
        requires { (p : Bounded) × FitsProblem p self.now.kept }
        ensures { IfOk result (λ listed. ListsShown self.now.kept.state listed.items) }
    {
        a_run_is_sound();
        let shown = self.kept.shown_here(alloc)?;
        in_order(alloc, shown.as_slice())
    }

    /// What the session answers to a step, with what stands behind it; the session stays as it is. To `next`, `offers` and `augment` it
    /// answers by searches: whatever comes of it, these raise the count by no more than the session's budget; and they come upon no copy
    /// that the session knows at its top floor. For them the pool is an accepted log over the translation's clauses, of at most 20,000
    /// steps. To `back`, `proof` and a budget, which is at most 100,000, it answers without a search. It fits the translation's problem,
    /// and has shown at most 99,000,000 scenarios. The error comes only for want of memory.
    pub fn propose(
        &mut self,
        alloc: Global,
        translation: &Translation,
        pool: &Log,
        step: &Step,
        count: &mut StepCount,
    ) -> Result<Proposal, AllocError>
        requires fits { FitsProblem translation.now.problem self.old.kept }
        requires room { length self.old.kept.state.shown ≤ 99000000 }
        requires import { NeedsTranslation step.now → IsImport translation.now pool.now }
        requires asked { NeedsTranslation step.now ⊎ IsPlain step.now }
        ensures proposal { NeedsTranslation step.now → IfOk result (IsProposal translation.now pool.now self.old.kept.state step.now) }
        ensures plain { IsPlain step.now → IfOk result (IsPlainProposal self.old.kept.state step.now) }
        ensures same { self.new ≡ self.old }
        ensures new { IfOk result (λ p. All (λ copy. ¬ Contains (copies_at (top_floor self.old.kept.state) self.old.kept) copy) p.copies) }
        ensures spent { count.new ≤ count.old + self.old.kept.state.budget }
        ensures idle { IsPlain step.now → count.new ≡ count.old }
    {
        match step {
            Step::Next => next(
                alloc,
                &self.kept,
                translation,
                pool,
                &mut self.trails,
                count,
            ),
            Step::Offers => offer(alloc, &self.kept, translation, pool, count),
            Step::Augment { relation, tuple } => {
                augment(alloc, &self.kept, translation, pool, relation, tuple, count)
            }
            Step::Back => Ok(leave(alloc, &self.kept)),
            Step::Budget(budget) => Ok(set(alloc, *budget)),
            Step::Proof => prove(alloc, &self.kept),
        }
    }

    /// Lets go of what its searches left for those to come: the next one begins anew. The session stays as it is.
    pub fn let_go(&mut self)
        ensures { self.new ≡ self.old }
    {
        self.trails.let_go();
    }

    /// Makes room for what was proposed. But for this room the session stays as it is. The error comes only for want of memory, and
    /// leaves all as it was.
    pub fn reserve(&mut self, proposal: &Proposal) -> Result<(), AllocError>
        ensures owner { self.new.owner ≡ self.old.owner }
        ensures key { self.new.key ≡ self.old.key }
        ensures state { self.new.kept.state ≡ self.old.kept.state }
        ensures copies { self.new.kept.copies ≡ self.old.kept.copies }
        ensures room { OnOk result (length proposal.now.copies < self.new.kept.room) }
        ensures err { OnErr result (self.new ≡ self.old) }
    {
        self.kept.reserve(proposal.copies().len())
    }

    /// Takes what was proposed, for which there has to be room; it takes no memory. The session fits the problem for which this
    /// was proposed, where it did before.
    pub fn apply(&mut self, proposal: Proposal)
        requires { length proposal.copies < self.old.kept.room }
        ensures owner { self.new.owner ≡ self.old.owner }
        ensures key { self.new.key ≡ self.old.key }
        ensures state { self.new.kept.state ≡ after self.old.kept.state proposal.reply }
        ensures copies { self.new.kept.copies ≡ copies_after self.old.kept proposal.reply proposal.copies }
        ensures fits { (t : Translated) (pool : List LogStep) (step : StepType) → FitsProblem t.problem self.old.kept → IsProposal t pool self.old.kept.state step proposal
            → FitsProblem t.problem self.new.kept }
        ensures plain { (p : Bounded) (step : StepType) → FitsProblem p self.old.kept → IsPlainProposal self.old.kept.state step proposal → FitsProblem p self.new.kept }
    {
        let (reply, copies) = proposal.into_answer();
        self.kept.apply(reply, copies);
    }
}
