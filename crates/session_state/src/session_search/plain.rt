// The steps that are answered without a search.
ghost use Rattle.std.specs.Prelude.{◌≤◌, ◌↔◌, IfOk, IsTrue};
ghost use Rattle.session_rules.specs.States.{State};
ghost use Rattle.session_state.specs.Sessions.Proposed.{IsPlainProposal, NeedsTranslation};

use crate::session_search::answer::{Proposal, at_once};
use crate::session_store::SessionStore;
use session_rules::{Refusal, Reply};
use session_words::Step;
use std::alloc::{AllocError, Global};

/// Whether a session answers the step by searches over the translation, as it does `next`, `offers` and `augment`.
pub fn needs_translation(step: &Step) -> bool
    ensures { IsTrue result ↔ NeedsTranslation step.now }
{
    match step {
        Step::Next => true,
        Step::Offers => true,
        Step::Augment { .. } => true,
        Step::Back => false,
        Step::Budget(_) => false,
        Step::Proof => false,
    }
}

/// What a session proposes where it is to leave the top floor.
pub(crate) fn leave(alloc: Global, store: &SessionStore) -> Proposal
    ensures { IsPlainProposal store.now.state Step.Back result }
{
    if store.height() == 0 {
        return at_once(alloc, Reply::Refused(Refusal::Bottom));
    }
    at_once(alloc, Reply::Back)
}

/// What a session proposes where it is to have another budget.
pub(crate) fn set(alloc: Global, budget: u32) -> Proposal
    requires { budget ≤ 100000 }
    ensures { (s : State) → IsPlainProposal s (Step.Budget budget) result }
{
    at_once(alloc, Reply::BudgetSet(budget))
}

/// What a session proposes where it is asked for the proof of the end of the top floor.
pub(crate) fn prove(alloc: Global, store: &SessionStore) -> Result<Proposal, AllocError>
    ensures { IfOk result (IsPlainProposal store.now.state Step.Proof) }
{
    match store.proof() {
        Some(proof) => {
            let proof = proof.copy()?;
            Ok(at_once(alloc, Reply::Proof { proof }))
        }
        None => Ok(at_once(alloc, Reply::Refused(Refusal::NoEnd))),
    }
}
