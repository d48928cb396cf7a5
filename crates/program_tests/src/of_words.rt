// What fails, what words say, and how much is read: the expected lines were worked out by hand.
use crate::running::{ends, explored};
use std::alloc::{AllocError, Global};
use std::process::Abort;
use std::sync::Wait;
use std::test::Fail;
use std::thread::Threads;

// Whether these words have this status and this output with a script of two steps, where the calls of these numbers fail.
fn fails<R: Threads + Wait + Abort + Sync>(
    rt: &R,
    alloc: Global,
    words: &[&str],
    (reads, writes): (&[u32], &[u32]),
    status: u8,
    expected: &str,
) -> Result<(), Fail> {
    let script = b"== model m\nsig A {} run {} for 2\n== session a m 1\nnext\nnext\n";
    let (found, text) = explored(rt, alloc, words, script, reads, writes)?;
    assert_eq!(rt; text.as_str(), expected);
    assert_eq!(rt; found, status);
    Ok(())
}

#[test]
fn tells_what_failed(rt: HostRuntime) -> Result<(), Fail> {
    let alloc = rt.alloc();
    let none: &[u32] = &[];
    let lines = "== a\nscenario 1\nA = {}\nend 1\n";
    fails(&rt, alloc, &["run"], (none, none), 0, lines)?;
    fails(&rt, alloc, &["run"], (&[2], none), 5, "")?;
    fails(&rt, alloc, &["run"], (none, &[2]), 6, "== a\nscena")
}

#[test]
fn reads_nothing_for_other_words(rt: HostRuntime) -> Result<(), Fail> {
    let alloc = rt.alloc();
    let (none, first): (&[u32], &[u32]) = (&[], &[1]);
    let line = "fault words\n";
    fails(&rt, alloc, &[], (first, none), 2, line)?;
    fails(&rt, alloc, &["run", "run"], (first, none), 2, line)?;
    fails(
        &rt,
        alloc,
        &["run", "--workers", "0"],
        (first, none),
        2,
        line,
    )?;
    fails(&rt, alloc, &["walk"], (first, none), 2, line)?;
    fails(&rt, alloc, &["walk"], (first, &[2]), 6, "fault word")
}

// Whether the word `run` has this status and this output for these bytes, filled up with number signs to a size.
fn reads<R: Threads + Wait + Abort + Sync>(
    rt: &R,
    alloc: Global,
    front: &[u8],
    size: usize,
    status: u8,
    expected: &str,
) -> Result<(), Fail> {
    let mut script = Vec::from_slice(alloc, front)?;
    script.resize(size, b'#')?;
    ends(rt, alloc, &["run"], &script, status, expected)
}

#[test]
fn reads_a_mebibyte(rt: HostRuntime) -> Result<(), Fail> {
    let alloc = rt.alloc();
    let front = b"== model m\nsig A {} run {} for 2\n== session a m 1\nnext\n";
    reads(
        &rt,
        alloc,
        front,
        1_048_576,
        0,
        "== a\nscenario 1\nA = {}\n",
    )?;
    reads(&rt, alloc, front, 1_048_577, 3, "fault script too_long\n")
}

// One line that begins with `#`.
#[test]
fn reads_a_mebibyte_without_effect(rt: HostRuntime) -> Result<(), Fail> {
    let alloc = rt.alloc();
    reads(&rt, alloc, b"", 1_048_576, 0, "")?;
    reads(&rt, alloc, b"", 1_048_577, 3, "fault script too_long\n")?;
    ends(
        &rt,
        alloc,
        &["run"],
        b"# \xFF\n",
        3,
        "fault script not_text\n",
    )
}

// Whether the words are refused, and nothing is read, where the first read would fail.
fn is_refused<R: Threads + Wait + Abort + Sync>(
    rt: &R,
    alloc: Global,
    words: &[&str],
) -> Result<bool, AllocError> {
    let (status, text) = explored(rt, alloc, words, b"== model m\n", &[1], &[])?;
    Ok(status == 2 && text.as_str() == "fault words\n")
}

#[test]
fn takes_options_of_run(rt: HostRuntime) -> Result<(), Fail> {
    let script = b"== model m\nsig A {} run { some A } for 2\n== session a m 1\nnext\nnext\n";
    let lines = "== a\nscenario 1\nA = {A$0}\nend 1\n";
    let words = ["run", "--workers=4", "--budget", "007"];
    ends(&rt, rt.alloc(), &words, script, 0, lines)
}

#[test]
fn refuses_other_options(rt: HostRuntime) -> Result<(), Fail> {
    let alloc = rt.alloc();
    assert!(rt; is_refused(&rt, alloc, &["run", "--workers", "4", "--workers", "4"])?);
    assert!(rt; is_refused(&rt, alloc, &["run", "--"])?);
    assert!(rt; is_refused(&rt, alloc, &["run", "-h"])?);
    assert!(rt; is_refused(&rt, alloc, &["help"])?);
    Ok(())
}

#[test]
fn refuses_other_numbers_of_workers(rt: HostRuntime) -> Result<(), Fail> {
    let alloc = rt.alloc();
    assert!(rt; is_refused(&rt, alloc, &["run", "--workers", "0"])?);
    assert!(rt; is_refused(&rt, alloc, &["run", "--workers="])?);
    assert!(rt; is_refused(&rt, alloc, &[])?);
    Ok(())
}
