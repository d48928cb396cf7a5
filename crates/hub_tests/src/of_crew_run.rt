// That any number of workers lists what is due, and what their journals say where they don't.

use crew_run::{CrewAnswer, CrewEntry, crew, crew_up_to};
use hub_lock::{Gate, OpenGate};
use rel_formula::Scenario;
use samples::exhaustive_search::all_due;
use samples::sample_links::{each_leads_on, links};
use samples::sample_translations::{translated_sets, translation_of};
use std::alloc::Global;
use std::sync::Wait;
use std::sync::atomic::{AtomicU32, Ordering};
use std::test::Fail;
use std::thread::{self, Threads};
use translation::Translation;

// Functions on so many atoms, each of which is a scenario.
fn functions(alloc: Global, places: &[u16]) -> Result<Translation, Fail> {
    let formula = each_leads_on(alloc)?;
    let problem = links(alloc, places, true, formula)?;
    Ok(translation_of(alloc, problem)?)
}

// What a crew answers, where its numbers are within their limits.
fn answered<R: Threads + Wait + Sync, G: Gate + Sync>(
    rt: &R,
    alloc: Global,
    translation: &Translation,
    workers: u32,
    budget: u64,
    gate: &G,
) -> Result<CrewAnswer, Fail> {
    if workers < 1 || workers > 16 || budget > 100_000_000 {
        Err("numbers beyond their limits")?;
    }
    Ok(crew(rt, alloc, translation, workers, budget, gate)?)
}

// What the crew lists.
fn listed<R: Threads + Wait + Sync>(
    rt: &R,
    alloc: Global,
    translation: &Translation,
    workers: u32,
) -> Result<Vec<Scenario>, Fail> {
    match answered(rt, alloc, translation, workers, 100_000, &OpenGate)? {
        CrewAnswer::Ended {
            scenarios,
            proof: _,
        } => Ok(scenarios),
        _ => Err(Fail::new("no end")),
    }
}

fn are_same(ones: &[Scenario], others: &[Scenario]) -> bool {
    ones.len() == others.len()
        && ones
            .iter()
            .zip(others)
            .all(|(one, other)| one.numbers() == other.numbers())
}

fn are_among(ones: &[Scenario], others: &[Scenario]) -> bool {
    ones.iter().all(|one| { others.iter().any(|other| one.numbers() == other.numbers()) })
}

#[test]
fn each_number_of_workers_lists_what_is_due(rt: HostRuntime) -> Result<(), Fail> {
    let alloc = rt.alloc();
    let translation = functions(alloc, &[0, 1, 2])?;
    let problem = translation.problem();
    if problem.cells() > 12 {
        Err("too many cells")?;
    }
    let due = all_due(alloc, problem)?;
    for workers in [1_u32, 2, 4, 16] {
        let scenarios = listed(&rt, alloc, &translation, workers)?;
        assert!(rt; scenarios.len() == due.len(), "{workers} workers");
        assert!(rt; are_among(&due, &scenarios), "{workers} workers");
    }
    Ok(())
}

#[test]
fn all_crews_give_one_list(rt: HostRuntime) -> Result<(), Fail> {
    let alloc = rt.alloc();
    let translation = functions(alloc, &[0, 1, 2, 3])?;
    let alone = listed(&rt, alloc, &translation, 1)?;
    assert!(rt; alone.len() > 19);
    for workers in [2_u32, 4, 16] {
        let scenarios = listed(&rt, alloc, &translation, workers)?;
        assert!(rt; are_same(&alone, &scenarios), "{workers} workers");
    }
    Ok(())
}

// How many entries tell of a scenario.
fn tells(journal: &[CrewEntry]) -> usize {
    let mut count = 0_usize;
    for entry in journal {
        if entry.event.told().is_some() {
            count = count.saturating_add(1);
        }
    }
    count
}

// The journal of a crew, where it is full.
fn filled<R: Threads + Wait + Sync>(
    rt: &R,
    alloc: Global,
    translation: &Translation,
    workers: u32,
    most: u32,
) -> Result<Vec<CrewEntry>, Fail> {
    if workers < 1 || workers > 16 || most > 1_000_000 {
        Err("numbers beyond their limits")?;
    }
    match crew_up_to(rt, alloc, translation, workers, 100_000, most, &OpenGate)? {
        CrewAnswer::Full { journal } => Ok(journal),
        _ => Err(Fail::new("a journal that isn't full")),
    }
}

#[test]
fn a_small_journal_is_full(rt: HostRuntime) -> Result<(), Fail> {
    let alloc = rt.alloc();
    let translation = functions(alloc, &[0, 1, 2])?;
    for most in [0_u32, 1, 3] {
        for workers in [1_u32, 2, 4] {
            let answer = crew_up_to(&rt, alloc, &translation, workers, 100_000, most, &OpenGate)?;
            let CrewAnswer::Full { journal } = answer else {
                return Err(Fail::new("a journal that isn't full"));
            };
            assert!(rt;
                tells(&journal) == most as usize,
                "{most} of {workers} workers"
            );
            assert!(rt;
                journal
                    .iter()
                    .all(|entry| 1 <= entry.by && entry.by <= workers)
            );
        }
    }
    Ok(())
}

// Whether the worker has given up.
fn has_given_up(journal: &[CrewEntry], worker: u32) -> bool {
    journal
        .iter()
        .any(|entry| entry.by == worker && entry.event.gave_up())
}

#[test]
fn without_a_budget_each_worker_gives_up(rt: HostRuntime) -> Result<(), Fail> {
    let alloc = rt.alloc();
    let translation = translated_sets(alloc, &[0, 1])?;
    for workers in [1_u32, 2, 16] {
        let answer = answered(&rt, alloc, &translation, workers, 0, &OpenGate)?;
        let CrewAnswer::Spent { journal } = answer else {
            return Err(Fail::new("a budget that isn't spent"));
        };
        for place in 0..workers {
            assert!(rt; has_given_up(&journal, place + 1), "{place} of {workers}");
        }
        assert!(rt; journal.iter().all(|entry| entry.event.end().is_none()));
    }
    Ok(())
}

// A gate at which worker 0 waits before its first round until worker 1 has passed before its own, for so many tries at most.
#[derive(Drop)]
struct Latch {
    passed: AtomicU32,
    waited: AtomicU32,
}

const TRIES: u32 = 400_000_000;

impl Gate for Latch {
    fn pass(&self, session: u32, command: u32) {
        if command != 0 {
            return;
        }
        if session == 1 {
            self.passed.store(1, Ordering::SeqCst);
        }
        if session == 0 {
            for _ in 0..TRIES {
                if self.passed.load(Ordering::SeqCst) == 1 {
                    self.waited.store(1, Ordering::SeqCst);
                    return;
                }
                thread::yield_now();
            }
        }
    }
}

#[test]
fn two_workers_search_at_the_same_time(rt: HostRuntime) -> Result<(), Fail> {
    let alloc = rt.alloc();
    let translation = functions(alloc, &[0, 1, 2])?;
    let latch = Latch {
        passed: AtomicU32::new(0),
        waited: AtomicU32::new(0),
    };
    let answer = crew(&rt, alloc, &translation, 2, 100_000, &latch)?;
    assert!(rt; latch.waited.load(Ordering::SeqCst) == 1);
    let CrewAnswer::Ended { scenarios, proof } = answer else {
        return Err(Fail::new("no end"));
    };
    assert!(rt; scenarios.len() > 6 && proof.imported() == 0);
    Ok(())
}

// A gate that counts how often it is passed.
#[derive(Drop)]
struct Counter {
    passed: AtomicU32,
}

impl Gate for Counter {
    fn pass(&self, _session: u32, _command: u32) {
        let _ = self.passed.fetch_add(1, Ordering::SeqCst);
    }
}

// How many rounds so many workers begin, and how many scenarios they block in the end.
fn rounds_of<R: Threads + Wait + Sync>(
    rt: &R,
    alloc: Global,
    translation: &Translation,
    workers: u32,
) -> Result<(usize, usize), Fail> {
    let counter = Counter {
        passed: AtomicU32::new(0),
    };
    let answer = answered(rt, alloc, translation, workers, 100_000, &counter)?;
    let rounds = counter.passed.load(Ordering::SeqCst) as usize;
    match answer {
        CrewAnswer::Ended {
            scenarios: _,
            proof,
        } => Ok((rounds, proof.blocked().len())),
        _ => Err(Fail::new("no end")),
    }
}

#[test]
fn one_worker_throws_nothing_away(rt: HostRuntime) -> Result<(), Fail> {
    let alloc = rt.alloc();
    let translation = functions(alloc, &[0, 1, 2, 3])?;
    let (rounds, blocked) = rounds_of(&rt, alloc, &translation, 1)?;
    assert!(rt; blocked > 19 && rounds == blocked.saturating_add(1));
    let (rounds, blocked) = rounds_of(&rt, alloc, &translation, 4)?;
    assert!(rt; rounds > blocked);
    Ok(())
}
