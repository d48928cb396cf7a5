// The command `crew`: the expected lines were worked out by hand, or are those with which `run` ends its lists.
use crate::of_workers::Holding;
use crate::running::{ends, explored, explored_through, run};
use std::alloc::Global;
use std::process::Abort;
use std::sync::Wait;
use std::test::Fail;
use std::thread::Threads;

// Whether crews of several sizes write these lines for this script.
fn all_write<R: Threads + Wait + Abort + Sync>(
    rt: &R,
    alloc: Global,
    script: &str,
    lines: &str,
) -> Result<(), Fail> {
    for workers in ["1", "2", "4", "16"] {
        let words = ["crew", "--workers", workers];
        ends(rt, alloc, &words, script.as_bytes(), 0, lines)?;
    }
    Ok(())
}

// A walk over three atoms, of which one is in the middle.
const WALK: &str = "== model m
sig A { f: set A } run { some disj a, b, c: A | a->b + b->c in f } for exactly 3 A
== session a m 1
all 10
";

const WALKS: &str = "== m 1
listed 1
A = {A$0, A$1, A$2}
f = {A$0->A$1, A$1->A$2}
listed 2
A = {A$0, A$1, A$2}
f = {A$0->A$1, A$2->A$0}
end 2
";

#[test]
fn each_crew_lists_what_is_due(rt: HostRuntime) -> Result<(), Fail> {
    let alloc = rt.alloc();
    all_write(&rt, alloc, WALK, WALKS)?;
    let none = "== model m\nsig A {} run { some A && no A } for 2\n== session a m 1\nnext\n";
    all_write(&rt, alloc, none, "== m 1\nend 0\n")
}

// Three pigeons have no three holes among two.
const PIGEONS: &str = "== model m
sig P { h: one Q } sig Q {} run { all disj p, q: P | p.h != q.h } for exactly 3 P, exactly 2 Q
== session a m 1
next
";

#[test]
fn a_spent_budget_is_told(rt: HostRuntime) -> Result<(), Fail> {
    let alloc = rt.alloc();
    let script = PIGEONS.as_bytes();
    for workers in ["1", "2", "16"] {
        let words = ["crew", "--workers", workers, "--budget", "0"];
        ends(&rt, alloc, &words, script, 0, "== m 1\nspent 0\n")?;
    }
    ends(&rt, alloc, &["crew"], script, 0, "== m 1\nend 0\n")
}

// Tournaments: of two atoms one beats the other.
fn tournaments(alloc: Global, atoms: u32) -> Result<String, Fail> {
    let fact = "all disj a, b: A | a->b in f or b->a in f";
    let script = format!(in alloc;
        "== model m\nsig A {{ f: set A }} run {{ {fact} }} for exactly {atoms} A\n== session a m 1\nall 1000\n"
    )?;
    Ok(script)
}

// Whether crews of these sizes write the lines with which `run` ends its list for this script, and the last of them is this one.
fn list_as_run<R: Threads + Wait + Abort + Sync>(
    rt: &R,
    alloc: Global,
    script: &str,
    sizes: &[&str],
    last: &str,
) -> Result<(), Fail> {
    let (_, text) = run(rt, alloc, script)?;
    let Some(list) = text.as_str().strip_prefix("== a\n") else {
        return Err(Fail::new("no list"));
    };
    assert_eq!(rt; list.lines().last(), Some(last));
    let lines = format!(in alloc; "== m 1\n{list}")?;
    for workers in sizes {
        let words = ["crew", "--workers", *workers];
        ends(rt, alloc, &words, script.as_bytes(), 0, &lines)?;
    }
    Ok(())
}

#[test]
fn lists_are_those_of_run(rt: HostRuntime) -> Result<(), Fail> {
    let alloc = rt.alloc();
    let script = tournaments(alloc, 4)?;
    list_as_run(&rt, alloc, &script, &["1", "2", "4", "16"], "end 11")
}

#[test]
fn so_are_longer_ones(rt: HostRuntime) -> Result<(), Fail> {
    let alloc = rt.alloc();
    let script = tournaments(alloc, 5)?;
    list_as_run(&rt, alloc, &script, &["2"], "end 65")
}

// The sessions' own commands are not run, and the order of the sessions leaves no trace.
#[test]
fn each_command_is_told_once_and_in_order(rt: HostRuntime) -> Result<(), Fail> {
    let models =
        "== model m\nsig A {} run { some A } for 2 run { no A } for 2 run {} for 2\n== model n\nsig B {} run { some B } for 1\n";
    let sessions =
        "== session a n 1\nnext\naugment B B$7\n== session b m 3\nproof\n== session c m 1\nbudget 0\n== session d m 3\nall 1\n";
    let alloc = rt.alloc();
    let script = format!(in alloc; "{models}{sessions}")?;
    let lines =
        "== m 1\nlisted 1\nA = {A$0}\nend 1\n== m 3\nlisted 1\nA = {}\nend 1\n== n 1\nlisted 1\nB = {B$0}\nend 1\n";
    all_write(&rt, alloc, &script, lines)
}

#[test]
fn counterexamples_of_a_check_are_listed(rt: HostRuntime) -> Result<(), Fail> {
    let alloc = rt.alloc();
    let fails = "== model m\nsig A {} assert n { no A } check n for 2\n== session a m 1\nnext\n";
    all_write(&rt, alloc, fails, "== m 1\nlisted 1\nA = {A$0}\nend 1\n")?;
    let holds =
        "== model m\nsig A { f: lone A } check { all x: A | lone x.f } for 4\n== session a m 1\nnext\n";
    all_write(&rt, alloc, holds, "== m 1\nend 0\n")
}

#[test]
fn without_sessions_nothing_is_written(rt: HostRuntime) -> Result<(), Fail> {
    let alloc = rt.alloc();
    ends(&rt, alloc, &["crew"], b"", 0, "")?;
    let script = b"== model m\nsig A {} run { some A } for 2\n";
    ends(&rt, alloc, &["crew", "--workers=4"], script, 0, "")
}

#[test]
fn scripts_and_models_are_refused_as_by_run(rt: HostRuntime) -> Result<(), Fail> {
    let rows: [(&str, u8, &str); 4] = [
        ("== modle m\n", 3, "fault script line 1 bad_directive\n"),
        (
            "== model m\nsig A {} run {} for 2\n== session a m 2\nnext\n",
            4,
            "fault model m command 2 no_command\n",
        ),
        (
            "== model m\nsig A {} run {} for 2\n== model n\nsig\n== session a m 1\nnext\n",
            4,
            "fault model n 1:4 end_of_text\n",
        ),
        (
            "== model m\nsig A { f: A -> A -> A } run {} for 2\n",
            4,
            "fault model m 1:9 arity_too_large\n",
        ),
    ];
    for (script, status, line) in rows {
        ends(&rt, rt.alloc(), &["crew"], script.as_bytes(), status, line)?;
    }
    Ok(())
}

#[test]
fn other_words_are_refused(rt: HostRuntime) -> Result<(), Fail> {
    let rows: [&[&str]; 4] = [
        &["crew", "3"],
        &["crew", "--workers=17"],
        &["crew", "--budget", "100001"],
        &["crew", "--workers", "1", "--workers", "1"],
    ];
    for words in rows {
        ends(&rt, rt.alloc(), words, b"", 2, "fault words\n")?;
    }
    Ok(())
}

// The second write fails, behind ten bytes, and in another run the first read.
#[test]
fn failing_sources_and_sinks_are_told(rt: HostRuntime) -> Result<(), Fail> {
    let alloc = rt.alloc();
    let (status, text) = explored(&rt, alloc, &["crew"], WALK.as_bytes(), &[], &[2])?;
    assert_eq!(rt; text.as_str(), "== m 1\nlis");
    assert_eq!(rt; status, 6);
    let (status, text) = explored(&rt, alloc, &["crew"], WALK.as_bytes(), &[1], &[])?;
    assert_eq!(rt; text.as_str(), "");
    assert_eq!(rt; status, 5);
    Ok(())
}

// Whether a crew of so many, whose first worker is held, lists what is due, and whether its gate gave up.
fn gives_up<R: Threads + Wait + Abort + Sync>(
    rt: &R,
    alloc: Global,
    workers: &str,
    looks: u32,
) -> Result<bool, Fail> {
    let gate = Holding::new(looks);
    let words = ["crew", "--workers", workers];
    let (status, text) = explored_through(rt, alloc, &gate, &words, WALK)?;
    assert_eq!(rt; text.as_str(), WALKS, "{workers} workers");
    assert_eq!(rt; status, 0, "{workers} workers");
    Ok(gate.has_given_up())
}

// The first worker waits for the second: only where both search at once does the gate let it go on.
#[test]
fn two_workers_search_at_once(rt: HostRuntime) -> Result<(), Fail> {
    assert!(rt; !gives_up(&rt, rt.alloc(), "2", 400_000_000)?);
    Ok(())
}

#[test]
fn one_worker_waits_for_nobody(rt: HostRuntime) -> Result<(), Fail> {
    assert!(rt; gives_up(&rt, rt.alloc(), "1", 1000)?);
    Ok(())
}
