// Whole sessions over a hub of a problem whose one scenario is empty.
ghost use Rattle.std.specs.Prelude.{◌≡◌, []};
ghost use Rattle.hub_state.specs.Journal.Journal.{IsPublished};
ghost use Rattle.hub_turns.specs.Turned.{IsIdle, IsOfKey, WentOn};

use crate::of_hub_state::{hub_of_one, reads, translated};
use hub_lock::{Gate, Pass, Turns, turns};
use hub_state::Hub;
use hub_turns::{passes_stay_idle, publish};
use session_rules::{Refusal, Reply, Step, Transcript};
use session_turns::{StepCount, open_session, serve_session};
use session_words::Command;
use std::alloc::{AllocError, Global};
use std::cell::Cell;
use std::sync::{Arc, Wait};
use std::test::Fail;
use translation::Translation;

// A gate that counts who passed, and writes down which command it was: a digit for each, with four commands a session.
#[derive(Drop)]
struct Counting {
    passed: Cell<u32>,
    digits: Cell<u32>,
}

impl Gate for Counting {
    fn pass(&self, session: u32, command: u32) {
        let digit = session.wrapping_mul(4).wrapping_add(command);
        self.passed.set(self.passed.get().wrapping_add(1));
        self.digits
            .set(self.digits.get().wrapping_mul(10).wrapping_add(digit));
    }
}

// Opens the session of the pass's number, and serves four commands.
fn serve_four<R: Wait, G: Gate>(
    rt: &R,
    alloc: Global,
    lock: &Turns<Hub>,
    gate: &G,
    place: u32,
    pass: &mut Pass<Hub>,
    t: &Translation,
) -> Result<Transcript, AllocError>
    requires idle { IsIdle lock.now pass.old }
    requires none { pass.old.view.own ≡ [] }
    requires published { IsPublished pass.old.view.seen 0 t.now }
    ensures goes { WentOn lock.now pass.old pass.new }
{
    let mut session = open_session(rt, alloc, lock, pass, 0, 50)?;
    let commands = [
        Command::Step(Step::Next),
        Command::Step(Step::Back),
        Command::All(2),
        Command::Step(Step::Budget(9)),
    ];
    let mut count = StepCount::new();
    serve_session(
        rt,
        alloc,
        lock,
        gate,
        place,
        pass,
        &mut session,
        t,
        &commands,
        &mut count,
    )
}

// Serves two sessions in passes of their own, which are split off before and taken back behind both.
fn serve_two<R: Wait, G: Gate>(
    rt: &R,
    alloc: Global,
    lock: &Turns<Hub>,
    gate: &G,
    root: &mut Pass<Hub>,
    t: &Translation,
) -> (
    Result<Transcript, AllocError>,
    Result<Transcript, AllocError>,
)
    requires idle { IsIdle lock.now root.old }
    requires first { (root.old.view.number ≡ 0) × (root.old.view.made ≡ 0) }
    requires published { IsPublished root.old.view.seen 0 t.now }
    ensures idle { IsIdle lock.now root.new }
{
    passes_stay_idle();
    let mut one = lock.split(root);
    let mut two = lock.split(root);
    let first = serve_four(rt, alloc, lock, gate, 0, &mut one, t);
    let second = serve_four(rt, alloc, lock, gate, 1, &mut two, t);
    lock.join(root, one);
    lock.join(root, two);
    (first, second)
}

// Publishes the translation, and serves two sessions.
fn publish_and_serve_two<R: Wait, G: Gate>(
    rt: &R,
    alloc: Global,
    lock: &Turns<Hub>,
    gate: &G,
    root: &mut Pass<Hub>,
    t: Arc<Translation>,
) -> Result<(Transcript, Transcript), AllocError>
    requires idle { IsIdle lock.now root.old }
    requires first { (root.old.view.number ≡ 0) × (root.old.view.made ≡ 0) }
    requires key { IsOfKey root.old 0 t.value }
    ensures idle { IsIdle lock.now root.new }
{
    let kept = publish(rt, lock, root, 0, t)?;
    let (first, second) = serve_two(rt, alloc, lock, gate, root, &kept);
    Ok((first?, second?))
}

// Whether these are the replies to the four commands.
fn are_the_four(x: &Transcript) -> bool {
    let replies = x.replies.replies();
    let floors = x.floors.scenarios();
    match replies {
        [next, back, all, budget] => {
            floors.len() == 4
                && matches!(next, Reply::Shown { number: 1, .. })
                && matches!(back, Reply::Refused(Refusal::Bottom))
                && matches!(all, Reply::All { scenarios } if scenarios.scenarios().len() == 1)
                && matches!(budget, Reply::BudgetSet(9))
        }
        _ => false,
    }
}

#[test]
fn sessions_are_served_to_their_ends(rt: HostRuntime) -> Result<(), Fail> {
    passes_stay_idle();
    let alloc = rt.alloc();
    let t = translated(alloc)?;
    let gate = Counting {
        passed: Cell::new(0),
        digits: Cell::new(0),
    };
    let (lock, mut root) = turns(alloc, hub_of_one(alloc)?)?;
    let served = publish_and_serve_two(&rt, alloc, &lock, &gate, &mut root, t);
    assert!(rt; root.number() == 0 && root.live() == 0);
    let hub = lock.close(root);
    let (first, second) = served?;
    assert!(rt; are_the_four(&first) && are_the_four(&second));
    assert!(rt; gate.passed.get() == 8 && gate.digits.get() == 1_234_567);
    let want = [
        (0, 1, 0),
        (1, 4, 50),
        (1, 2, 0),
        (1, 5, 1),
        (1, 7, 0),
        (1, 2, 0),
        (1, 6, 1),
        (1, 7, 0),
        (2, 4, 50),
        (2, 2, 0),
        (2, 5, 1),
        (2, 7, 0),
        (2, 2, 0),
        (2, 6, 1),
        (2, 7, 0),
    ];
    assert!(rt; reads(&hub, &want));
    Ok(())
}
