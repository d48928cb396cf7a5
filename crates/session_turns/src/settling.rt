// A reply is recorded, and then taken in.
ghost use Rattle.std.specs.Prelude.{◌≡◌, ◌<◌, length, IfOk, OnOk, OnErr};
ghost use Rattle.translation_rules.specs.Translation.{Translated};
ghost use Rattle.session_state.specs.Sessions.Fits.{FitsProblem};
ghost use Rattle.hub_state.specs.Journal.Noted.{Recorded as WasRecorded};
ghost use Rattle.hub_turns.specs.Turned.{IsIdle, WentOn, HasAdded, MayAdd};
ghost use Rattle.session_turns.specs.Added.{HasProposed, HasSettled};

use hub_lock::{Pass, Turns};
use hub_state::Hub;
use hub_turns::record_step;
use session_rules::Reply;
use session_state::session_search::{Proposal, Session};
use session_words::Step;
use std::alloc::{AllocError, Global};
use std::sync::Wait;

/// Records what was proposed for the step, takes it in, and gives its reply; or wants memory, adds nothing, and leaves the session
/// as it was. Once it is recorded nothing takes memory.
pub(crate) fn settle<R: Wait>(
    rt: &R,
    alloc: Global,
    lock: &Turns<Hub>,
    pass: &mut Pass<Hub>,
    session: &mut Session,
    step: &Step,
    proposal: Proposal,
) -> Reply
    requires idle { IsIdle lock.now pass.old }
    requires may { MayAdd pass.old (WasRecorded step.now proposal.reply) }
    ensures goes { WentOn lock.now pass.old pass.new }
    ensures settled { HasSettled pass.old pass.new session.old session.new step.now proposal.reply result }
    ensures fits { (t : Translated) → FitsProblem t.problem session.old.kept → HasProposed t pass.old session.old step.now proposal → FitsProblem t.problem session.new.kept }
    ensures owner { session.new.owner ≡ session.old.owner }
    ensures key { session.new.key ≡ session.old.key }
{
    match recorded(rt, alloc, lock, pass, session, step, &proposal) {
        Ok(reply) => {
            session.apply(proposal);
            reply
        }
        Err(_) => Reply::Memory,
    }
}

// Makes room for what was proposed, and records it: its reply.
#[tactic(auto, using(hub_turns::proofs::Onward::went_none))]
fn recorded<R: Wait>(
    rt: &R,
    alloc: Global,
    lock: &Turns<Hub>,
    pass: &mut Pass<Hub>,
    session: &mut Session,
    step: &Step,
    proposal: &Proposal,
) -> Result<Reply, AllocError>
    requires idle { IsIdle lock.now pass.old }
    requires may { MayAdd pass.old (WasRecorded step.now proposal.now.reply) }
    ensures goes { WentOn lock.now pass.old pass.new }
    ensures reply { IfOk result (λ reply. reply ≡ proposal.now.reply) }
    ensures added { OnOk result (HasAdded pass.old pass.new (WasRecorded step.now proposal.now.reply)) }
    ensures err { OnErr result (pass.new.view.own ≡ pass.old.view.own) }
    ensures room { OnOk result (length proposal.now.copies < session.new.kept.room) }
    ensures state { session.new.kept.state ≡ session.old.kept.state }
    ensures copies { session.new.kept.copies ≡ session.old.kept.copies }
    ensures owner { session.new.owner ≡ session.old.owner }
    ensures key { session.new.key ≡ session.old.key }
{
    session.reserve(proposal)?;
    let asked = step.copy(alloc)?;
    let kept = proposal.reply().copy(alloc)?;
    let reply = proposal.reply().copy(alloc)?;
    record_step(rt, lock, pass, asked, kept)?;
    Ok(reply)
}
