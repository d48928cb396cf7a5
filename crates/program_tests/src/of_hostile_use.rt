// Calls that fail, scripts that are cut, scripts at their limits, and models that take long: each row's status and output were
// worked out by hand.
use crate::running::{answered, ends, explored_widely, grown};
use std::alloc::Global;
use std::fmt::Write;
use std::process::Abort;
use std::sync::Wait;
use std::test::Fail;
use std::thread::Threads;

const FILE_SYSTEM: &str =
    "== model m\nsig FSObject { parent: lone Dir } sig Dir extends FSObject { contents: set FSObject } sig File extends FSObject {} one sig Root extends Dir {} fact { File + Dir = FSObject } fact { all d: Dir, o: d.contents | o.parent = d } fact { no Root.parent FSObject in Root.*contents } run {} for 3\n== session a m 1\nnext\naugment File FSObject$1\nall 10\n";

const FILE_SYSTEM_LINES: &str =
    "== a\nscenario 1\nFSObject = {FSObject$0}\nDir = {FSObject$0}\nFile = {}\nRoot = {FSObject$0}\nparent = {}\ncontents = {}\naugmented\nlisted 1\nFSObject = {FSObject$0, FSObject$1, FSObject$2}\nDir = {FSObject$0, FSObject$2}\nFile = {FSObject$1}\nRoot = {FSObject$0}\nparent = {FSObject$1->FSObject$2, FSObject$2->FSObject$0}\ncontents = {FSObject$0->FSObject$2, FSObject$2->FSObject$1}\nlisted 2\nFSObject = {FSObject$0, FSObject$1}\nDir = {FSObject$0}\nFile = {FSObject$1}\nRoot = {FSObject$0}\nparent = {FSObject$1->FSObject$0}\ncontents = {FSObject$0->FSObject$1}\nend 2\n";

// Whether the file system has this status and, of its lines, so many bytes at the front, where the calls of these numbers fail.
fn grows<R: Threads + Wait + Abort + Sync>(
    rt: &R,
    alloc: Global,
    (reads, writes): (&[u32], &[u32]),
    (status, size): (u8, usize),
) -> Result<(), Fail> {
    let (found, text) = explored_widely(
        rt,
        alloc,
        &["run"],
        FILE_SYSTEM.as_bytes(),
        reads,
        writes,
    )?;
    assert_eq!(rt; found, status);
    assert_eq!(rt; text.len(), size);
    assert!(rt; FILE_SYSTEM_LINES.starts_with(text.as_str()));
    Ok(())
}

// The script has 352 bytes: 22 calls read them, and one more finds their end.
#[test]
fn each_read_fails_in_turn(rt: HostRuntime) -> Result<(), Fail> {
    let none: &[u32] = &[];
    for number in 1..24 {
        grows(&rt, rt.alloc(), (&[number], none), (5, 0))?;
    }
    for number in 24..61 {
        grows(&rt, rt.alloc(), (&[number], none), (0, 551))?;
    }
    Ok(())
}

// The output has 551 bytes, which 35 calls write; what comes before the call that fails is written.
#[test]
fn each_write_fails_in_turn(rt: HostRuntime) -> Result<(), Fail> {
    let none: &[u32] = &[];
    let mut size: usize = 0;
    for number in 1..36 {
        grows(&rt, rt.alloc(), (none, &[number]), (6, size))?;
        size = size.saturating_add(16).min(551);
    }
    for number in 36..61 {
        grows(&rt, rt.alloc(), (none, &[number]), (0, size))?;
    }
    Ok(())
}

#[test]
fn a_script_ends_anywhere(rt: HostRuntime) -> Result<(), Fail> {
    let alloc = rt.alloc();
    let rows = [
        ("== model m\n", 0, ""),
        (
            "== model m\nsig A {} run { some",
            4,
            "fault model m 1:20 end_of_text\n",
        ),
        (
            "== model m\nsig A {} run { some A } for 2\n== session a m",
            3,
            "fault script line 3 bad_directive\n",
        ),
        (
            "== model m\nsig A {} run { some A } for 2\n== session a m 1\nnex",
            3,
            "fault script line 4 bad_directive\n",
        ),
        (
            "== model m\nsig A {} run { some A } for 2\n== session a m 1\nnext",
            0,
            "== a\nscenario 1\nA = {A$0}\n",
        ),
    ];
    for (script, status, lines) in rows {
        answered(&rt, alloc, script, status, lines)?;
    }
    Ok(())
}

// Whether so many lines behind a model, and behind the line of a session where it is wanted, are answered by so many copies.
fn takes<R: Threads + Wait + Abort + Sync>(
    rt: &R,
    alloc: Global,
    session: &str,
    (line, count): ((&str, bool, &str), u32),
    (front, copy): (&str, (&str, bool, &str)),
) -> Result<(), Fail> {
    let front_of_script = format!(in alloc;
        "== model m\nsig A {{}} run {{ some A }} for 2\n{session}"
    )?;
    let script = grown(alloc, front_of_script.as_str(), line, count)?;
    let lines = grown(alloc, front, copy, count)?;
    answered(rt, alloc, script.as_str(), 0, lines.as_str())
}

#[test]
fn scripts_just_fit(rt: HostRuntime) -> Result<(), Fail> {
    let alloc = rt.alloc();
    let sessions = ("== session s", true, " m 1\n");
    takes(&rt, alloc, "", (sessions, 64), ("", ("== s", true, "\n")))?;
    let session = "== session a m 1\n";
    let budgets = ("budget 0\n", false, "");
    takes(
        &rt,
        alloc,
        session,
        (budgets, 4096),
        ("== a\n", ("budget 0\n", false, "")),
    )?;
    let lists = ("all 1000\n", false, "");
    takes(
        &rt,
        alloc,
        session,
        (lists, 20),
        ("== a\n", ("listed 1\nA = {A$0}\nend 1\n", false, "")),
    )
}

#[test]
fn each_number_of_workers_writes_the_same(rt: HostRuntime) -> Result<(), Fail> {
    let alloc = rt.alloc();
    let script =
        "== model m\nsig A { f: set A } run { some f } for 2\n== session a m 1\nall 10\n== session b m 1\nall 10\n";
    let lines =
        "== a\nlisted 1\nA = {A$0, A$1}\nf = {A$0->A$1}\nlisted 2\nA = {A$0}\nf = {A$0->A$0}\nend 2\n== b\nlisted 1\nA = {A$0, A$1}\nf = {A$0->A$1}\nlisted 2\nA = {A$0}\nf = {A$0->A$0}\nend 2\n";
    for workers in 1..17 {
        let number = format!(in alloc; "{workers}")?;
        ends(
            &rt,
            alloc,
            &["run", "--workers", number.as_str()],
            script.as_bytes(),
            0,
            lines,
        )?;
    }
    Ok(())
}

// The output for a model that begins so, goes on with so many copies and ends with a command, where a session asks for a scenario.
fn large<R: Threads + Wait + Abort + Sync>(
    rt: &R,
    alloc: Global,
    front: &str,
    (copy, count): (&str, u32),
    (end, status, lines): (&str, u8, &str),
) -> Result<(), Fail> {
    let mut script = grown(alloc, front, (copy, false, ""), count)?;
    write!(script, "{end}\n== session a m 1\nnext\n")?;
    answered(rt, alloc, script.as_str(), status, lines)
}

// What grows with the text alone is answered.
#[test]
fn models_are_long(rt: HostRuntime) -> Result<(), Fail> {
    let alloc = rt.alloc();
    let front = "== model m\nsig A {}\n";
    let facts = ("fact {}\n", 10_000);
    large(
        &rt,
        alloc,
        front,
        facts,
        ("run {} for 1", 0, "== a\nscenario 1\nA = {}\n"),
    )?;
    large(
        &rt,
        alloc,
        front,
        ("check {}\n", 10_000),
        ("", 0, "== a\nend 0\n"),
    )
}

// Each link has what stands before it twice: 30 of them make a formula that is too large to be built.
#[test]
fn links_double_a_formula(rt: HostRuntime) -> Result<(), Fail> {
    let alloc = rt.alloc();
    let front = "== model m\nsig A {} run { some A";
    let link = " <=> some A";
    large(
        &rt,
        alloc,
        front,
        (link, 4),
        (" } for 1", 0, "== a\nscenario 1\nA = {A$0}\n"),
    )?;
    large(&rt, alloc, front, (link, 30), (" } for 1", 7, ""))
}
