// What a session proposes.
ghost use Rattle.std.specs.Prelude.{◌≡◌, ◌≤◌, [], IfOk, length};
ghost use Rattle.session_state.specs.Sessions.Proposed.{SetsSmallBudget};

use refutation_check::Part;
use rel_formula::Scenario;
use session_rules::{Parts, Refusal, Reply, Scenarios, WorkDone};
use std::alloc::{AllocError, Global};
use std::marker::Model;

/// A reply to a step, the parts of the searches for it, and the copies of shown scenarios that they came upon, of which there
/// are at most 100,000. A budget that the reply sets is at most 100,000 too.
#[derive(Drop)]
pub struct Proposal {
    reply: Reply,
    parts: Parts,
    copies: Scenarios,
}

impl Model for Proposal {
    ghost use Rattle.std.specs.Prelude.{◌≤◌, length};
    ghost use Rattle.session_state.specs.Sessions.Proposed.{Proposed, SetsSmallBudget};

    ghost Value = { Proposed };

    ghost view = { λ p. record { reply = p.reply; parts = p.parts; copies = p.copies } };

    ghost invariant = { λ p. SetsSmallBudget p.reply × (length p.copies ≤ 100000) };
}

impl Proposal {
    /// The reply.
    pub fn reply(&self) -> &Reply
        ensures { result.now ≡ self.now.reply }
    {
        &self.reply
    }

    /// The parts of the searches, in order.
    pub fn parts(&self) -> &[Part]
        ensures { result.now ≡ self.now.parts }
    {
        self.parts.parts()
    }

    /// The copies of shown scenarios, in order. They are at most 100,000.
    pub fn copies(&self) -> &[Scenario]
        ensures copies { result.now ≡ self.now.copies }
        ensures few { length self.now.copies ≤ 100000 }
    {
        self.copies.scenarios()
    }

    /// Gives the reply and the copies back. A budget that the reply sets is at most 100,000.
    pub(crate) fn into_answer(self) -> (Reply, Scenarios)
        ensures reply { result.0 ≡ self.reply }
        ensures copies { result.1 ≡ self.copies }
        ensures budget { SetsSmallBudget self.reply }
    {
        (self.reply, self.copies)
    }
}

/// A reply for which nothing was done.
pub(crate) fn at_once(alloc: Global, reply: Reply) -> Proposal
    requires { SetsSmallBudget reply }
    ensures { result ≡ record { reply = reply; parts = []; copies = [] } }
{
    searched(alloc, reply, Parts::of(Vec::new(alloc)))
}

/// A reply for which these searches were made, which came upon no copies.
pub(crate) fn searched(alloc: Global, reply: Reply, parts: Parts) -> Proposal
    requires { SetsSmallBudget reply }
    ensures { result ≡ record { reply = reply; parts = parts; copies = [] } }
{
    with_copies(reply, parts, Scenarios::of(Vec::new(alloc)))
}

/// A reply for which these searches were made, which came upon these copies.
pub(crate) fn with_copies(reply: Reply, parts: Parts, copies: Scenarios) -> Proposal
    requires budget { SetsSmallBudget reply }
    requires few { length copies ≤ 100000 }
    ensures { result ≡ record { reply = reply; parts = parts; copies = copies } }
{
    Proposal {
        reply,
        parts,
        copies,
    }
}

/// That the budget was spent on these parts and copies, which the reply has too.
pub(crate) fn spent(
    alloc: Global,
    budget: u32,
    parts: Parts,
    copies: Scenarios,
) -> Result<Proposal, AllocError>
    requires { length copies ≤ 100000 }
    ensures { IfOk result (λ p. p ≡ record { reply = Reply.Refused (Refusal.Spent (record { budget = budget; parts = parts; copies = copies })); parts = parts; copies = copies }) }
{
    let work = WorkDone {
        budget,
        parts: parts.copy(alloc)?,
        copies: copies.copy(alloc)?,
    };
    let reply = Reply::Refused(Refusal::Spent(work));
    Ok(with_copies(reply, parts, copies))
}
