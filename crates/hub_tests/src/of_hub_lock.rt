// A journal of marks, and workers in threads that add to it.
ghost use Rattle.std.specs.Prelude.{◌≡◌, ◌≤◌, None, All, vec_capacity};

use hub_lock::{Gate, Kept, OpenGate, Pass, Turns, turns};
use std::alloc::Global;
use std::process::Abort;
use std::sync::Wait;
use std::test::Fail;
use std::thread::{self, Threads, join_mut};

#[derive(Clone, Copy)]
struct Mark {
    by: u32,
    step: u32,
}

#[derive(Drop)]
struct Journal {
    kind: u64,
    marks: Vec<Mark>,
}

impl Kept for Journal {
    type Entry = Mark;

    type Base = u64;

    ghost by = { λ m. m.by };

    ghost entries = { λ j. j.marks.items };

    ghost base = { λ j. j.kind };

    fn count(&self) -> u64 {
        self.marks.len() as u64
    }
}

impl Journal {
    // All that the pass with this number added, in order, for so many steps.
    fn is_in_order(&self, by: u32, steps: u32) -> bool {
        let mut next = 0_u32;
        for mark in &self.marks {
            if mark.by == by {
                if mark.step != next {
                    return false;
                }
                next = next.saturating_add(1);
            }
        }
        next == steps
    }
}

struct Worker {
    pass: Pass<Journal>,
    steps: u32,
}

// One turn, which adds a mark.
fn add<R: Wait>(rt: &R, lock: &Turns<Journal>, pass: &mut Pass<Journal>, step: u32)
    requires own { pass.old.lock ≡ lock.now }
    requires idle { pass.old.view.turn ≡ None }
    ensures own { pass.new.lock ≡ pass.old.lock }
    ensures idle { pass.new.view.turn ≡ None }
    ensures same { (pass.new.view.number ≡ pass.old.view.number) × (pass.new.view.live ≡ pass.old.view.live) }
{
    let by = pass.number();
    let mut held = lock.take(rt, pass);
    let _ = held.get_mut().marks.push(Mark { by, step });
    lock.give(pass, held);
}

// So many turns.
fn work<R: Wait>(rt: &R, lock: &Turns<Journal>, worker: &mut Worker, steps: u32)
    requires own { worker.old.pass.lock ≡ lock.now }
    requires idle { worker.old.pass.view.turn ≡ None }
    ensures own { worker.new.pass.lock ≡ worker.old.pass.lock }
    ensures idle { worker.new.pass.view.turn ≡ None }
{
    while worker.steps < steps {
        add(rt, lock, &mut worker.pass, worker.steps);
        worker.steps += 1;
    }
}

// A worker for each place.
fn hire<R: Abort>(
    rt: &R,
    lock: &Turns<Journal>,
    root: &mut Pass<Journal>,
    workers: &mut Vec<Worker>,
    count: usize,
)
    requires own { root.old.lock ≡ lock.now }
    requires idle { root.old.view.turn ≡ None }
    requires room { count ≤ vec_capacity workers.old }
    requires ready { All (λ w. (w.pass.lock ≡ lock.now) × (w.pass.view.turn ≡ None)) workers.old.items }
    ensures own { root.new.lock ≡ root.old.lock }
    ensures idle { root.new.view.turn ≡ None }
    ensures ready { All (λ w. (w.pass.lock ≡ lock.now) × (w.pass.view.turn ≡ None)) workers.new.items }
{
    while workers.len() < count {
        assert!(rt; root.number() == 0 && root.made() < 1000);
        let pass = lock.split(root);
        workers.push_reserved(Worker { pass, steps: 0 });
    }
}

// All passes are taken back.
fn gather<R: Abort>(
    rt: &R,
    lock: &Turns<Journal>,
    root: &mut Pass<Journal>,
    mut workers: Vec<Worker>,
)
    requires own { root.old.lock ≡ lock.now }
    requires idle { root.old.view.turn ≡ None }
    requires ready { All (λ w. (w.pass.lock ≡ lock.now) × (w.pass.view.turn ≡ None)) workers.items }
    ensures own { root.new.lock ≡ root.old.lock }
    ensures idle { root.new.view.turn ≡ None }
{
    while let Some(worker) = workers.pop() {
        let Worker { pass, steps: _ } = worker;
        assert!(rt; root.number() == 0 && pass.number() != 0);
        lock.join(root, pass);
    }
    workers.destroy_empty();
}

// What so many workers leave, each in a thread of its own.
fn journal_of<R: Threads + Wait + Abort + Sync>(
    rt: &R,
    alloc: Global,
    count: usize,
    steps: u32,
) -> Journal {
    let mut workers: Vec<Worker> = Vec::with_capacity(alloc, count).expect(rt, "memory");
    let journal = Journal {
        kind: 7,
        marks: Vec::new(alloc),
    };
    let (lock, mut root) = turns(alloc, journal).expect(rt, "memory");
    hire(rt, &lock, &mut root, &mut workers, count);
    assert!(rt; 0 < count);
    thread::for_each_mut(
        rt,
        workers.as_mut_slice(),
        count,
        &|_, worker: &mut Worker|
            requires { (worker.now.pass.lock ≡ lock) × (worker.now.pass.view.turn ≡ None) }
            ensures { (worker.exit.now.pass.lock ≡ worker.entry.now.pass.lock) × (worker.exit.now.pass.view.turn ≡ None) }
        { work(rt, &lock, worker, steps) },
    );
    gather(rt, &lock, &mut root, workers);
    assert!(rt; root.number() == 0 && root.live() == 0);
    lock.close(root)
}

#[test]
fn each_worker_adds_a_mark_in_a_thousand_turns(rt: HostRuntime) -> Result<(), Fail> {
    for count in [2_usize, 4, 16] {
        let journal = journal_of(&rt, rt.alloc(), count, 1000);
        assert!(rt; journal.marks.len() == count * 1000, "{count} workers");
        for by in 1..count as u32 + 1 {
            assert!(rt; journal.is_in_order(by, 1000), "worker {by} of {count}");
        }
        assert!(rt; journal.kind == 7);
    }
    Ok(())
}

// Passes that come and go: each is split off, takes a turn or none, and is taken back.
fn come_and_go<R: Wait + Abort>(rt: &R, lock: &Turns<Journal>, root: &mut Pass<Journal>, steps: u32)
    requires own { root.old.lock ≡ lock.now }
    requires idle { root.old.view.turn ≡ None }
    ensures own { root.new.lock ≡ root.old.lock }
    ensures idle { root.new.view.turn ≡ None }
{
    for step in 0..steps {
        assert!(rt; root.number() == 0 && root.made() < 1000);
        let mut guest = lock.split(root);
        if step % 2 == 0 {
            add(rt, lock, &mut guest, 0);
        }
        add(rt, lock, root, step);
        assert!(rt; root.number() == 0 && guest.number() != 0);
        lock.join(root, guest);
    }
}

#[test]
fn passes_come_and_go_between_turns(rt: HostRuntime) -> Result<(), Fail> {
    let journal = Journal {
        kind: 5,
        marks: Vec::new(rt.alloc()),
    };
    let (lock, mut root) = turns(rt.alloc(), journal).expect(&rt, "memory");
    let mut worker = Worker {
        pass: lock.split(&mut root),
        steps: 0,
    };
    let never = lock.split(&mut root);
    join_mut(
        &rt,
        &mut || work(&rt, &lock, &mut worker, 1000),
        &mut || come_and_go(&rt, &lock, &mut root, 200),
    );
    let Worker { pass, steps: _ } = worker;
    assert!(rt; root.number() == 0 && pass.number() == 1 && never.number() == 2);
    lock.join(&mut root, pass);
    lock.join(&mut root, never);
    assert!(rt; root.number() == 0 && root.live() == 0 && root.made() == 202);
    let journal = lock.close(root);
    assert!(rt; journal.marks.len() == 1300 && journal.kind == 5);
    assert!(rt; journal.is_in_order(1, 1000) && journal.is_in_order(0, 200));
    for guest in 0..200_u32 {
        assert!(rt;
            journal.is_in_order(guest + 3, 1 - guest % 2),
            "guest {guest}"
        );
    }
    assert!(rt; journal.is_in_order(2, 0));
    Ok(())
}

#[test]
fn a_held_value_has_what_was_seen(rt: HostRuntime) -> Result<(), Fail> {
    let journal = Journal {
        kind: 9,
        marks: Vec::new(rt.alloc()),
    };
    let (lock, mut root) = turns(rt.alloc(), journal).expect(&rt, "memory");
    let mut other = lock.split(&mut root);
    assert!(rt; root.number() == 0 && root.made() == 1 && root.live() == 1);
    assert!(rt; other.number() == 1 && other.made() == 0 && other.live() == 0);
    add(&rt, &lock, &mut other, 0);
    let held = lock.take(&rt, &mut root);
    let marks = held.get().marks.len();
    let kind = held.get().kind;
    lock.give(&mut root, held);
    add(&rt, &lock, &mut other, 1);
    lock.join(&mut root, other);
    assert!(rt; marks == 1 && kind == 9 && root.live() == 0);
    let journal = lock.close(root);
    assert!(rt; journal.marks.len() == 2 && journal.is_in_order(1, 2));
    Ok(())
}

fn passes_through<G: Gate>(gate: &G, session: u32) -> u32 {
    for command in 0..session {
        gate.pass(session, command);
    }
    session
}

#[test]
fn an_open_gate_holds_nobody(rt: HostRuntime) {
    assert_eq!(rt; passes_through(&OpenGate, 3), 3);
}
