// Sessions side by side: each number of workers writes the same lists, and workers run at once.
use crate::running::{grown, run_through};
use explorer_cli::{Gate, OpenGate};
use std::alloc::Global;
use std::process::Abort;
use std::sync::Wait;
use std::sync::atomic::{AtomicBool, Ordering};
use std::test::Fail;
use std::thread::Threads;

// Tournaments: of two players one beats the other. Two commands of one model have them, and a third model has file systems.
const MODELS: &str = "== model games
sig P { beats: set P }
pred tournament { no p: P | p->p in beats  all disj p, q: P | p->q in beats iff q->p !in beats }
run tournament for exactly 3 P
run tournament for exactly 4 P
== model files
sig FSObject { parent: lone Dir } sig Dir extends FSObject { contents: set FSObject } sig File extends FSObject {}
one sig Root extends Dir {}
fact { File + Dir = FSObject } fact { all d: Dir, o: d.contents | o.parent = d } fact { no Root.parent FSObject in Root.*contents }
run {} for 3
";

// Three sessions on one command, two on another of the same model, and two on a command of the other model.
const SESSIONS: &str = "== session a games 1
all 1000
== session b games 2
all 100
== session c games 1
budget 50000
all 1000
== session d files 1
all 1000
all 1000
== session e games 1
all 1000
== session f games 2
all 1000
== session g files 1
all 1000
";

#[test]
fn each_number_of_workers_writes_the_same_lists(rt: HostRuntime) -> Result<(), Fail> {
    let alloc = rt.alloc();
    let script = format!(in alloc; "{MODELS}{SESSIONS}")?;
    let (_, alone) = run_through(&rt, alloc, &OpenGate, 1, &script)?;
    assert!(rt;
        alone
            .as_str()
            .starts_with("== a\nlisted 1\nP = {P$0, P$1, P$2}\n")
    );
    for workers in 2..17 {
        let (status, text) = run_through(&rt, alloc, &OpenGate, workers, &script)?;
        assert_eq!(rt; status, 0, "{workers} workers");
        assert_eq!(rt; text.as_str(), alone.as_str(), "{workers} workers");
    }
    Ok(())
}

// The only scenario has the one atom that it needs.
const ONE: &str = "== model m\nsig A {} run { some A } for 2\n";

// So many sessions on one command, which all ask for its scenarios, and what they are answered.
fn sessions_of_one(alloc: Global, count: u32) -> Result<(String, String), Fail> {
    let script = grown(alloc, ONE, ("== session s", true, " m 1\nall 10\n"), count)?;
    let lines = "\nlisted 1\nA = {A$0}\nend 1\n";
    let told = grown(alloc, "", ("== s", true, lines), count)?;
    Ok((script, told))
}

#[test]
fn sixteen_workers_serve_64_sessions(rt: HostRuntime) -> Result<(), Fail> {
    let alloc = rt.alloc();
    let (script, told) = sessions_of_one(alloc, 64)?;
    let (status, text) = run_through(&rt, alloc, &OpenGate, 16, &script)?;
    assert_eq!(rt; text.as_str(), told.as_str());
    assert_eq!(rt; status, 0);
    Ok(())
}

/// A gate that holds the first of two before its first command, or round, until the second has passed before its own, for so many
/// looks at most.
#[derive(Drop)]
pub struct Holding {
    looks: u32,
    passed: AtomicBool,
    gave_up: AtomicBool,
}

impl Holding {
    /// A gate that gives up after so many looks.
    pub fn new(looks: u32) -> Holding {
        Holding {
            looks,
            passed: AtomicBool::new(false),
            gave_up: AtomicBool::new(false),
        }
    }

    /// Whether it gave up.
    pub fn has_given_up(&self) -> bool {
        self.gave_up.load(Ordering::SeqCst)
    }

    fn hold(&self) {
        for _ in 0..self.looks {
            if self.passed.load(Ordering::SeqCst) {
                return;
            }
        }
        self.gave_up.store(true, Ordering::SeqCst);
    }
}

impl Gate for Holding {
    fn pass(&self, session: u32, command: u32) {
        match (session, command) {
            (0, 0) => self.hold(),
            (1, 0) => self.passed.store(true, Ordering::SeqCst),
            _ => {}
        }
    }
}

// Whether two sessions that are served by so many workers are answered, the first one held, and whether its gate gave up.
fn gives_up<R: Threads + Wait + Abort + Sync>(
    rt: &R,
    alloc: Global,
    workers: u32,
    looks: u32,
) -> Result<bool, Fail> {
    let (script, told) = sessions_of_one(alloc, 2)?;
    let gate = Holding::new(looks);
    let (status, text) = run_through(rt, alloc, &gate, workers, &script)?;
    assert_eq!(rt; text.as_str(), told.as_str(), "{workers} workers");
    assert_eq!(rt; status, 0, "{workers} workers");
    Ok(gate.has_given_up())
}

// The first session waits for the second: only where both run at once does the gate let it go on.
#[test]
fn two_workers_run_at_once(rt: HostRuntime) -> Result<(), Fail> {
    assert!(rt; !gives_up(&rt, rt.alloc(), 2, 400_000_000)?);
    Ok(())
}

#[test]
fn one_worker_serves_one_session_after_the_other(rt: HostRuntime) -> Result<(), Fail> {
    assert!(rt; gives_up(&rt, rt.alloc(), 1, 1000)?);
    Ok(())
}
