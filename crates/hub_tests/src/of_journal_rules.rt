// Copies of entries, read back as numbers.
use cnf_core::{Clause, Lit};
use hub_state::journal_rules::{Entry, Event};
use refutation_check::{Hints, Log};
use session_rules::{Reply, Step};
use std::alloc::{AllocError, Global};
use std::test::Fail;

// A log of one step: the unit clause of variable 3, from member 8.
fn log(alloc: Global) -> Result<Log, Fail> {
    let lits = vec![in alloc;
        Lit {
            var: 3,
            positive: true
        },
    ]?;
    match Clause::of(alloc, lits.as_slice())? {
        Some(clause) => {
            let hints = Hints::of(vec![in alloc; 8]?);
            let mut log = Log::new(alloc);
            log.push(refutation_check::Step { clause, hints })?;
            Ok(log)
        }
        None => Err("a tautology")?,
    }
}

// The hints of the steps.
fn read_log(out: &mut Vec<u32>, log: &Log) -> Result<(), AllocError> {
    for step in log.steps() {
        out.extend_from_slice(step.hints.numbers())?;
    }
    Ok(())
}

// The budget that is asked for and that is set, and 0 for other steps and replies.
fn read_exchange(out: &mut Vec<u32>, step: &Step, reply: &Reply) -> Result<(), AllocError> {
    let asked = match step {
        Step::Budget(budget) => *budget,
        _ => 0,
    };
    let set = match reply {
        Reply::BudgetSet(budget) => *budget,
        _ => 0,
    };
    out.extend_from_slice(&[asked, set])
}

// The session's number, the place of the event in its list, and what it holds.
fn read_entry(out: &mut Vec<u32>, entry: &Entry) -> Result<(), AllocError> {
    out.push(entry.by)?;
    match &entry.event {
        Event::Published { key } => Ok(out.extend_from_slice(&[1, *key])?),
        Event::Imported { key, steps } => Ok(out.extend_from_slice(&[2, *key, *steps])?),
        Event::Shared { key, steps } => {
            out.extend_from_slice(&[3, *key])?;
            Ok(read_log(out, steps)?)
        }
        Event::Opened { key, budget } => Ok(out.extend_from_slice(&[4, *key, *budget])?),
        Event::Recorded { step, reply } => {
            out.push(5)?;
            Ok(read_exchange(out, step, reply)?)
        }
    }
}

// Whether a copy of the entry reads as these numbers.
fn copy_reads(alloc: Global, event: Event, want: &[u32]) -> Result<bool, AllocError> {
    let entry = Entry { by: 9, event };
    let mut out = Vec::new(alloc);
    read_entry(&mut out, &entry.copy(alloc)?)?;
    Ok(out.as_slice() == want)
}

#[test]
fn copies_of_entries_are_equal(rt: HostRuntime) -> Result<(), Fail> {
    let alloc = rt.alloc();
    assert!(rt; copy_reads(alloc, Event::Published { key: 2 }, &[9, 1, 2])?);
    let imported = Event::Imported { key: 2, steps: 7 };
    assert!(rt; copy_reads(alloc, imported, &[9, 2, 2, 7])?);
    let steps = log(alloc)?;
    let shared = Event::Shared { key: 4, steps };
    assert!(rt; copy_reads(alloc, shared, &[9, 3, 4, 8])?);
    let opened = Event::Opened { key: 1, budget: 50 };
    assert!(rt; copy_reads(alloc, opened, &[9, 4, 1, 50])?);
    let recorded = Event::Recorded {
        step: Step::Budget(60),
        reply: Reply::BudgetSet(61),
    };
    assert!(rt; copy_reads(alloc, recorded, &[9, 5, 60, 61])?);
    let memory = Event::Recorded {
        step: Step::Next,
        reply: Reply::Memory,
    };
    assert!(rt; copy_reads(alloc, memory, &[9, 5, 0, 0])?);
    Ok(())
}
