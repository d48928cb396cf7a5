// The command `load`: the sums were worked out by hand. Of the four models that are made three have two scenarios each, and one has none.
ghost use Rattle.std.specs.Prelude.{◌≤◌};

use crate::running::{ends, explored};
use std::alloc::Global;
use std::process::Abort;
use std::sync::Wait;
use std::test::Fail;
use std::thread::Threads;

#[test]
fn one_load_has_four_sessions(rt: HostRuntime) -> Result<(), Fail> {
    let lines = "sessions 4\nshown 6\nended 4\n";
    ends(&rt, rt.alloc(), &["load", "1"], b"", 0, lines)
}

#[test]
fn sixteen_loads_have_sixty_four(rt: HostRuntime) -> Result<(), Fail> {
    let lines = "sessions 64\nshown 96\nended 64\n";
    ends(&rt, rt.alloc(), &["load", "16"], b"", 0, lines)
}

// Whether the load of this number shows six scenarios for each number up to it.
fn loads<R: Threads + Wait + Sync + Abort>(rt: &R, alloc: Global, number: u32) -> Result<(), Fail>
    requires { number ≤ 16 }
{
    let word = format!(in alloc; "{number}")?;
    let (sessions, shown) = (4 * number, 6 * number);
    let lines = format!(in alloc; "sessions {sessions}\nshown {shown}\nended {sessions}\n")?;
    ends(rt, alloc, &["load", &word], b"", 0, &lines)
}

// No script that is made has a fault, and each of its models can be used.
#[test]
fn each_number_is_run(rt: HostRuntime) -> Result<(), Fail> {
    for number in 1..17 {
        loads(&rt, rt.alloc(), number)?;
    }
    Ok(())
}

#[test]
fn workers_change_nothing(rt: HostRuntime) -> Result<(), Fail> {
    let alloc = rt.alloc();
    let lines = "sessions 12\nshown 18\nended 12\n";
    ends(&rt, alloc, &["load", "3", "--workers", "1"], b"", 0, lines)?;
    ends(&rt, alloc, &["load", "--workers=4", "3"], b"", 0, lines)?;
    ends(&rt, alloc, &["load", "3", "--workers=16"], b"", 0, lines)
}

// The first read would fail, and the input is no script.
#[test]
fn reads_nothing(rt: HostRuntime) -> Result<(), Fail> {
    let (status, text) = explored(&rt, rt.alloc(), &["load", "1"], b"next\n", &[1], &[])?;
    assert_eq!(rt; text.as_str(), "sessions 4\nshown 6\nended 4\n");
    assert_eq!(rt; status, 0);
    Ok(())
}

// The second write fails, behind ten bytes.
#[test]
fn writes_a_part_where_the_sink_fails(rt: HostRuntime) -> Result<(), Fail> {
    let (status, text) = explored(&rt, rt.alloc(), &["load", "1"], b"", &[], &[2])?;
    assert_eq!(rt; text.as_str(), "sessions 4");
    assert_eq!(rt; status, 6);
    Ok(())
}

#[test]
fn other_words_are_refused(rt: HostRuntime) -> Result<(), Fail> {
    let rows: [&[&str]; 9] = [
        &["load"],
        &["load", "0"],
        &["load", "17"],
        &["load", "x"],
        &["load", "-1"],
        &["load", "1", "2"],
        &["load", "1", "--budget", "5"],
        &["load", "1", "--workers", "17"],
        &["load", "--workers", "1"],
    ];
    for words in rows {
        ends(&rt, rt.alloc(), words, b"", 2, "fault words\n")?;
    }
    Ok(())
}
