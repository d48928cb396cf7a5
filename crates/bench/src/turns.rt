// Turns of a lock, by one worker and by several at once.
ghost use Rattle.std.specs.Prelude.{◌≡◌, ◌<◌, ◌≤◌, ◌^◌, [], None, All, length, vec_capacity};
ghost use Rattle.bench.specs.Turns.{IsReady, IsRoot};

use hub_lock::{Kept, Pass, Turns};
use std::alloc::{AllocError, Global};
use std::sync::Wait;
use std::thread::{self, Threads};

/// The number of the pass whose turn it was.
#[derive(Clone, Copy)]
pub struct Mark {
    pub by: u32,
}

/// A mark for each turn, and the number of workers.
#[derive(Drop)]
pub struct Journal {
    pub marks: Vec<Mark>,
    pub workers: u64,
}

impl Kept for Journal {
    type Entry = Mark;

    type Base = u64;

    ghost by = { λ m. m.by };

    ghost entries = { λ j. j.marks.items };

    ghost base = { λ j. j.workers };

    fn count(&self) -> u64 {
        self.marks.len() as u64
    }
}

/// A worker's right to take turns.
pub struct Worker {
    pub pass: Pass<Journal>,
}

/// Takes so many turns, a part of them by each of so many workers at once, and gives the number of marks.
pub fn taken<R: Threads + Wait + Sync>(
    rt: &R,
    alloc: Global,
    workers: u32,
    turns: u32,
) -> Result<u32, AllocError>
    requires { 0 < workers }
{
    let count = workers as usize;
    let mut crew: Vec<Worker> = Vec::with_capacity(alloc, count)?;
    let journal = Journal {
        marks: Vec::new(alloc),
        workers: u64::from(workers),
    };
    let (lock, mut root) = match hub_lock::turns(alloc, journal) {
        Ok(made) => made,
        Err(error) => {
            crew.destroy_empty();
            return Err(error);
        }
    };
    hire(&lock, &mut root, &mut crew, count);
    let each = turns / workers;
    thread::for_each_mut(
        rt,
        crew.as_mut_slice(),
        count,
        &|_, worker: &mut Worker|
            requires { IsReady lock worker.now }
            ensures { IsReady lock worker.exit.now }
        { work(rt, &lock, worker, each) },
    );
    gather(&lock, &mut root, crew);
    let journal = lock.close(root);
    Ok(u32::try_from(journal.marks.len()).unwrap_or(u32::MAX))
}

fn hire(lock: &Turns<Journal>, root: &mut Pass<Journal>, crew: &mut Vec<Worker>, count: usize)
    requires root { IsRoot lock.now 0 root.old × (root.old.view.made ≡ 0) }
    requires room { (crew.old.items ≡ []) × (count ≤ vec_capacity crew.old) × (count < 2 ^ 32) }
    ensures root { IsRoot lock.now (length crew.new.items) root.new }
    ensures ready { All (IsReady lock.now) crew.new.items }
    ensures count { length crew.new.items ≡ count }
{
    while crew.len() < count {
        let pass = lock.split(root);
        crew.push_reserved(Worker { pass });
    }
}

fn work<R: Wait>(rt: &R, lock: &Turns<Journal>, worker: &mut Worker, turns: u32)
    requires { IsReady lock.now worker.old }
    ensures { IsReady lock.now worker.new }
{
    for _ in 0..turns {
        turn(rt, lock, &mut worker.pass);
    }
}

fn turn<R: Wait>(rt: &R, lock: &Turns<Journal>, pass: &mut Pass<Journal>)
    requires own { pass.old.lock ≡ lock.now }
    requires idle { pass.old.view.turn ≡ None }
    ensures own { pass.new.lock ≡ pass.old.lock }
    ensures idle { pass.new.view.turn ≡ None }
    ensures number { pass.new.view.number ≡ pass.old.view.number }
{
    let by = pass.number();
    let mut held = lock.take(rt, pass);
    let _ = held.get_mut().marks.push(Mark { by });
    lock.give(pass, held);
}

fn gather(lock: &Turns<Journal>, root: &mut Pass<Journal>, mut crew: Vec<Worker>)
    requires root { IsRoot lock.now (length crew.items) root.old }
    requires ready { All (IsReady lock.now) crew.items }
    ensures root { IsRoot lock.now 0 root.new }
{
    while let Some(worker) = crew.pop() {
        let Worker { pass } = worker;
        lock.join(root, pass);
    }
    crew.destroy_empty();
}
