// Words that are right, and words that aren't.
use command_words::{Command, command_of};
use std::alloc::{AllocError, Global};
use std::test::Fail;

fn said(alloc: Global, words: &[&str]) -> Result<Option<Command>, AllocError> {
    let mut owned = Vec::new(alloc);
    for word in words {
        owned.push(String::from_str(alloc, word)?)?;
    }
    command_of(alloc, &owned)
}

fn run(workers: u32, budget: u32) -> Option<Command> {
    Some(Command::Run { workers, budget })
}

#[test]
fn right_words_say_a_command(rt: HostRuntime) -> Result<(), Fail> {
    let rows: [(&[&str], Option<Command>); 19] = [
        (&["check"], Some(Command::Check)),
        (&["run"], run(4, 20000)),
        (&["run", "--workers", "1"], run(1, 20000)),
        (&["run", "--workers=16"], run(16, 20000)),
        (&["run", "--budget", "0"], run(4, 0)),
        (&["run", "--budget=100000"], run(4, 100_000)),
        (&["run", "--workers=4", "--budget", "007"], run(4, 7)),
        (
            &["run", "--budget=000000000", "--workers", "000000016"],
            run(16, 0),
        ),
        (&["run", "--workers", "2", "--budget", "3"], run(2, 3)),
        (&["run", "--budget", "3", "--workers", "2"], run(2, 3)),
        (&["run", "--budget=3", "--workers=2"], run(2, 3)),
        (&["run", "--budget=3", "--workers", "2"], run(2, 3)),
        (&["run", "--workers=2", "--budget=3"], run(2, 3)),
        (&["run", "--workers", "2", "--budget=3"], run(2, 3)),
        (
            &["distinct"],
            Some(Command::Distinct {
                workers: 4,
                budget: 20_000,
            }),
        ),
        (
            &["distinct", "--budget=7", "--workers", "16"],
            Some(Command::Distinct {
                workers: 16,
                budget: 7,
            }),
        ),
        (&["assert"], Some(Command::Assert { budget: 20_000 })),
        (&["facts"], Some(Command::Facts { budget: 20_000 })),
        (
            &["facts", "--budget", "0"],
            Some(Command::Facts { budget: 0 }),
        ),
    ];
    for (words, command) in rows {
        assert_eq!(rt; said(rt.alloc(), words)?, command);
    }
    Ok(())
}

#[test]
fn other_commands_are_none(rt: HostRuntime) -> Result<(), Fail> {
    let rows: [&[&str]; 22] = [
        &[],
        &[""],
        &["-"],
        &["--"],
        &["-h"],
        &["--help"],
        &["-V"],
        &["--version"],
        &["help"],
        &["help", "run"],
        &["runs"],
        &["Run"],
        &["ru"],
        &["facts", "--workers", "2"],
        &["distinct", "--workers=17"],
        &["crews", "--workers", "2", "--budget", "5"],
        &["--", "run"],
        &["check", "check"],
        &["check", "--workers", "4"],
        &["check", "--"],
        &["check", ""],
        &["--workers", "4", "run"],
    ];
    for words in rows {
        assert_eq!(rt; said(rt.alloc(), words)?, None);
    }
    Ok(())
}

#[test]
fn other_options_are_none(rt: HostRuntime) -> Result<(), Fail> {
    let rows: [&[&str]; 22] = [
        &["run", "run"],
        &["run", "check"],
        &["run", ""],
        &["run", "4"],
        &["run", "-"],
        &["run", "--"],
        &["run", "-h"],
        &["run", "--help"],
        &["run", "help"],
        &["run", "--", "--workers", "4"],
        &["run", "--workers", "4", "--"],
        &["run", "--workers", "--", "4"],
        &["run", "--worker", "4"],
        &["run", "--work", "4"],
        &["run", "-workers", "4"],
        &["run", "--=4"],
        &["run", "--workers", "4", "--workers", "4"],
        &["run", "--workers=4", "--workers=4"],
        &["run", "--budget=1", "--workers=2", "--budget=1"],
        &["run", "--workers", "4", "5"],
        &["run", "--workers=4", "5"],
        &["run", "--workers=4", "--budget=1", "x"],
    ];
    for words in rows {
        assert_eq!(rt; said(rt.alloc(), words)?, None);
    }
    Ok(())
}

#[test]
fn other_numbers_are_none(rt: HostRuntime) -> Result<(), Fail> {
    let rows: [&[&str]; 24] = [
        &["run", "--workers"],
        &["run", "--workers="],
        &["run", "--workers", ""],
        &["run", "--workers", "--budget", "1"],
        &["run", "--workers", "0"],
        &["run", "--workers", "17"],
        &["run", "--workers", "0000000004"],
        &["run", "--workers=0000000004"],
        &["run", "--workers", "+4"],
        &["run", "--workers=+4"],
        &["run", "--workers", "-4"],
        &["run", "--workers=-4"],
        &["run", "--workers", " 4"],
        &["run", "--workers", "4a"],
        &["run", "--workers==4"],
        &["run", "--workers", "four"],
        &["run", "--budget", "100001"],
        &["run", "--budget=999999999"],
        &["run", "--budget", "-0"],
        &["run", "--budget=-0"],
        &["run", "--budget", "18446744073709551617"],
        &["run", "--workers", "17", "--budget", "1"],
        &["run", "--workers=0", "--budget=1"],
        &["run", "--budget=x", "--workers=4"],
    ];
    for words in rows {
        assert_eq!(rt; said(rt.alloc(), words)?, None);
    }
    Ok(())
}

fn load(number: u32, workers: u32) -> Option<Command> {
    Some(Command::Load { number, workers })
}

#[test]
fn a_load_has_a_number(rt: HostRuntime) -> Result<(), Fail> {
    let rows: [(&[&str], Option<Command>); 10] = [
        (&["load", "1"], load(1, 4)),
        (&["load", "16"], load(16, 4)),
        (&["load", "007"], load(7, 4)),
        (&["load", "000000003"], load(3, 4)),
        (&["load", "2", "--workers", "1"], load(2, 1)),
        (&["load", "2", "--workers=16"], load(2, 16)),
        (&["load", "--workers", "3", "2"], load(2, 3)),
        (&["load", "--workers=3", "2"], load(2, 3)),
        (&["load", "5", "--workers", "005"], load(5, 5)),
        (&["load", "--workers", "16", "016"], load(16, 16)),
    ];
    for (words, command) in rows {
        assert_eq!(rt; said(rt.alloc(), words)?, command);
    }
    Ok(())
}

#[test]
fn other_loads_are_none(rt: HostRuntime) -> Result<(), Fail> {
    let rows: [&[&str]; 27] = [
        &["load"],
        &["load", ""],
        &["load", "0"],
        &["load", "17"],
        &["load", "100"],
        &["load", "0000000001"],
        &["load", "+1"],
        &["load", "-1"],
        &["load", "x"],
        &["load", "1x"],
        &["load", " 1"],
        &["load", "-"],
        &["load", "--"],
        &["load", "--", "1"],
        &["load", "1", "--"],
        &["load", "--help"],
        &["load", "-h"],
        &["load", "help"],
        &["load", "1", "1"],
        &["load", "1", "2"],
        &["load", "--number", "1"],
        &["load", "--number=1"],
        &["load", "1", "--budget", "5"],
        &["load", "1", "--workers"],
        &["load", "--workers", "1"],
        &["load", "1", "--workers", "0"],
        &["load", "--workers=2", "1", "--workers=2"],
    ];
    for words in rows {
        assert_eq!(rt; said(rt.alloc(), words)?, None);
    }
    Ok(())
}

fn crew(workers: u32, budget: u32) -> Option<Command> {
    Some(Command::Crew { workers, budget })
}

#[test]
fn a_crew_has_both_options(rt: HostRuntime) -> Result<(), Fail> {
    let rows: [(&[&str], Option<Command>); 7] = [
        (&["crew"], crew(4, 20_000)),
        (&["crew", "--workers", "16", "--budget", "0"], crew(16, 0)),
        (
            &["crew", "--budget=100000", "--workers=1"],
            crew(1, 100_000),
        ),
        (&["crew", "--budget=7"], crew(4, 7)),
        (&["crew", "--budget", "007"], crew(4, 7)),
        (&["crew", "--workers=2"], crew(2, 20_000)),
        (&["crew", "--workers", "3", "--budget=5"], crew(3, 5)),
    ];
    for (words, command) in rows {
        assert_eq!(rt; said(rt.alloc(), words)?, command);
    }
    Ok(())
}

#[test]
fn other_crews_are_none(rt: HostRuntime) -> Result<(), Fail> {
    let rows: [&[&str]; 12] = [
        &["crew", "3"],
        &["crew", ""],
        &["crew", "crew"],
        &["crew", "--"],
        &["crew", "--help"],
        &["crew", "--workers", "0"],
        &["crew", "--workers", "17"],
        &["crew", "--workers="],
        &["crew", "--budget", "100001"],
        &["crew", "--budget", "0", "--budget", "0"],
        &["crew", "--workers=2", "--workers=2"],
        &["crew", "--number", "1"],
    ];
    for words in rows {
        assert_eq!(rt; said(rt.alloc(), words)?, None);
    }
    Ok(())
}
