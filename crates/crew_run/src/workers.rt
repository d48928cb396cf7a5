// A crew: workers that are hired, work at once, and are gathered.
ghost use Rattle.std.specs.Prelude.{◌≡◌, ◌≤◌, ◌<◌, ◌^◌, [], Some, All, length, vec_capacity, IfOk};
ghost use Rattle.crew_run.specs.Crew.{IsCrewAnswer};
ghost use Rattle.crew_run.specs.Passing.{IsReady, IsRoot};

use crate::answer::{CrewAnswer, answer_of};
use crate::journal::CrewJournal;
use crate::work::{Worker, work};
use hub_lock::{Gate, Pass, Turns, turns};
use std::alloc::{AllocError, Global};
use std::sync::Wait;
use std::thread::{self, Threads};
use translation::Translation;

// How many scenarios a journal may tell of.
const MOST_TOLD: u32 = 1_000_000;

/// What so many workers find that is due at the empty floor, each in a thread of its own where one can be made.
///
/// The answer is all that is due, each scenario once and in order, with a proof that nothing else is left; so it is the same for every
/// number of workers and every order of their turns. Or each worker has given up, since a round with all that it knew to be found
/// spent the whole budget; or the journal tells of 1,000,000 scenarios; then the journal stands in the answer. The budget is at most
/// 100,000,000. Before each round a worker passes the gate, with its place, from 0, and the round's, from 0. The error comes only
/// for want of memory. The call may wait.
pub fn crew<R: Threads + Wait + Sync, G: Gate + Sync>(
    rt: &R,
    alloc: Global,
    translation: &Translation,
    workers: u32,
    budget: u64,
    gate: &G,
) -> Result<CrewAnswer, AllocError>
    requires workers { (1 ≤ workers) × (workers ≤ 16) }
    requires budget { budget ≤ 100000000 }
    ensures { IfOk result (IsCrewAnswer translation.now workers budget 1000000) }
{
    crew_up_to(rt, alloc, translation, workers, budget, MOST_TOLD, gate)
}

/// The same with a journal that may tell of so many scenarios, at most 1,000,000.
pub fn crew_up_to<R: Threads + Wait + Sync, G: Gate + Sync>(
    rt: &R,
    alloc: Global,
    translation: &Translation,
    workers: u32,
    budget: u64,
    most: u32,
    gate: &G,
) -> Result<CrewAnswer, AllocError>
    requires workers { (1 ≤ workers) × (workers ≤ 16) }
    requires budget { budget ≤ 100000000 }
    requires most { most ≤ 1000000 }
    ensures { IfOk result (IsCrewAnswer translation.now workers budget most) }
{
    let journal = written(rt, alloc, translation, workers, budget, most, gate)?;
    answer_of(alloc, journal, translation, workers)
}

// What the workers have written down, once all have stopped.
fn written<R: Threads + Wait + Sync, G: Gate + Sync>(
    rt: &R,
    alloc: Global,
    translation: &Translation,
    workers: u32,
    budget: u64,
    most: u32,
    gate: &G,
) -> Result<CrewJournal, AllocError>
    requires workers { (1 ≤ workers) × (workers ≤ 16) }
    requires budget { budget ≤ 100000000 }
    requires most { most ≤ 1000000 }
    ensures task { IfOk result (λ journal. journal.task ≡ record { translation = translation.now; budget = budget; most = most }) }
    ensures numbers { IfOk result (λ journal. All (λ e. (1 ≤ e.by) × (e.by ≤ workers)) journal.entries) }
{
    let count = workers as usize;
    let mut crew: Vec<Worker> = Vec::with_capacity(alloc, count)?;
    let journal = CrewJournal::new(alloc, translation, budget, most);
    let (lock, mut root) = match turns(alloc, journal) {
        Ok(made) => made,
        Err(error) => {
            crew.destroy_empty();
            return Err(error);
        }
    };
    hire(&lock, &mut root, &mut crew, count);
    thread::for_each_mut(
        rt,
        crew.as_mut_slice(),
        count,
        &|_, worker: &mut Worker|
            requires { IsReady lock (Some (record { translation = translation.now; budget = budget; most = most })) worker.now.pass × (budget ≤ 100000000) × (most ≤ 1000000) }
            ensures { IsReady lock (Some (record { translation = translation.entry.now; budget = budget; most = most })) worker.exit.now.pass }
        { work(rt, alloc, &lock, worker, translation, budget, most, gate) },
    );
    gather(&lock, &mut root, crew);
    Ok(lock.close(root))
}

// A worker for each place, with a pass that is split off from the first one.
fn hire(
    lock: &Turns<CrewJournal>,
    root: &mut Pass<CrewJournal>,
    crew: &mut Vec<Worker>,
    count: usize,
)
    requires root { IsRoot lock.now root.old.view.base 0 0 root.old }
    requires room { (crew.old.items ≡ []) × (count ≤ vec_capacity crew.old) × (count < 2 ^ 32) }
    ensures root { IsRoot lock.now root.old.view.base count count root.new }
    ensures ready { All (λ w. IsReady lock.now root.old.view.base w.pass) crew.new.items }
    ensures count { length crew.new.items ≡ count }
{
    while crew.len() < count {
        let pass = lock.split(root);
        crew.push_reserved(Worker { pass });
    }
}

// Takes all passes back.
fn gather(lock: &Turns<CrewJournal>, root: &mut Pass<CrewJournal>, mut crew: Vec<Worker>)
    requires root { IsRoot lock.now root.old.view.base root.old.view.made (length crew.items) root.old }
    requires ready { All (λ w. IsReady lock.now root.old.view.base w.pass) crew.items }
    ensures { IsRoot lock.now root.old.view.base root.old.view.made 0 root.new }
{
    while let Some(worker) = crew.pop() {
        let Worker { pass } = worker;
        lock.join(root, pass);
    }
    crew.destroy_empty();
}
