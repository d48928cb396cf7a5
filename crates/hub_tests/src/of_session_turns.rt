// A session over a hub of a problem whose one scenario is empty.
ghost use Rattle.std.specs.Prelude.{◌≡◌, []};
ghost use Rattle.hub_state.specs.Journal.Journal.{IsPublished};
ghost use Rattle.hub_turns.specs.Turned.{IsIdle, IsOfKey, WentOn};

use crate::of_hub_state::{hub_of_one, reads, translated};
use hub_lock::{Pass, Turns, turns};
use hub_state::Hub;
use hub_turns::{passes_stay_idle, publish};
use session_rules::{Reply, Step};
use session_turns::{StepCount, command, open_session};
use session_words::Command;
use std::alloc::{AllocError, Global};
use std::sync::{Arc, Wait};
use std::test::Fail;
use translation::Translation;

// What a session answers.
#[derive(Drop)]
struct Replies {
    next: Reply,
    all: Reply,
    proof: Reply,
    budget: Reply,
}

// Opens a session, and asks it for a scenario, for all, for the proof, and for a budget.
fn serve<R: Wait>(
    rt: &R,
    alloc: Global,
    lock: &Turns<Hub>,
    pass: &mut Pass<Hub>,
    t: &Translation,
) -> Result<Replies, AllocError>
    requires idle { IsIdle lock.now pass.old }
    requires none { pass.old.view.own ≡ [] }
    requires published { IsPublished pass.old.view.seen 0 t.now }
    ensures goes { WentOn lock.now pass.old pass.new }
{
    let mut session = open_session(rt, alloc, lock, pass, 0, 50)?;
    let mut count = StepCount::new();
    let next = command(
        rt,
        alloc,
        lock,
        pass,
        &mut session,
        t,
        &Command::Step(Step::Next),
        &mut count,
    );
    let all = command(
        rt,
        alloc,
        lock,
        pass,
        &mut session,
        t,
        &Command::All(3),
        &mut count,
    );
    let proof = command(
        rt,
        alloc,
        lock,
        pass,
        &mut session,
        t,
        &Command::Step(Step::Proof),
        &mut count,
    );
    let budget = command(
        rt,
        alloc,
        lock,
        pass,
        &mut session,
        t,
        &Command::Step(Step::Budget(7)),
        &mut count,
    );
    Ok(Replies {
        next,
        all,
        proof,
        budget,
    })
}

// Serves a session in a pass of its own, which is split off and taken back.
fn serve_in_a_pass<R: Wait>(
    rt: &R,
    alloc: Global,
    lock: &Turns<Hub>,
    root: &mut Pass<Hub>,
    t: &Translation,
) -> Result<Replies, AllocError>
    requires idle { IsIdle lock.now root.old }
    requires first { (root.old.view.number ≡ 0) × (root.old.view.made ≡ 0) }
    requires published { IsPublished root.old.view.seen 0 t.now }
    ensures idle { IsIdle lock.now root.new }
{
    passes_stay_idle();
    let mut pass = lock.split(root);
    let replies = serve(rt, alloc, lock, &mut pass, t);
    lock.join(root, pass);
    replies
}

// Publishes the translation, and serves a session.
fn publish_and_serve<R: Wait>(
    rt: &R,
    alloc: Global,
    lock: &Turns<Hub>,
    root: &mut Pass<Hub>,
    t: Arc<Translation>,
) -> Result<Replies, AllocError>
    requires idle { IsIdle lock.now root.old }
    requires first { (root.old.view.number ≡ 0) × (root.old.view.made ≡ 0) }
    requires key { IsOfKey root.old 0 t.value }
    ensures idle { IsIdle lock.now root.new }
{
    let kept = publish(rt, lock, root, 0, t)?;
    serve_in_a_pass(rt, alloc, lock, root, &kept)
}

#[test]
fn a_session_takes_turns(rt: HostRuntime) -> Result<(), Fail> {
    passes_stay_idle();
    let alloc = rt.alloc();
    let t = translated(alloc)?;
    let (lock, mut root) = turns(alloc, hub_of_one(alloc)?)?;
    let served = publish_and_serve(&rt, alloc, &lock, &mut root, t);
    assert!(rt; root.number() == 0 && root.live() == 0);
    let hub = lock.close(root);
    let replies = served?;
    assert!(rt; matches!(&replies.next, Reply::Shown { number: 1, .. }));
    assert!(rt; matches!(&replies.all, Reply::All { .. }));
    assert!(rt; matches!(&replies.proof, Reply::Proof { .. }));
    assert!(rt; matches!(&replies.budget, Reply::BudgetSet(7)));
    let want = [
        (0, 1, 0),
        (1, 4, 50),
        (1, 2, 0),
        (1, 5, 1),
        (1, 2, 0),
        (1, 6, 1),
        (1, 7, 0),
        (1, 7, 0),
    ];
    assert!(rt; reads(&hub, &want));
    Ok(())
}
