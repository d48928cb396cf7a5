//! The program: it hands its words, its input and its output to the top call, and ends with the number of the status that this gives.
#![tactic(auto)]

use explorer_cli::{OpenGate, StepCount, explore};
use outside_io::{Status, StdSink, StdSource};
use std::process::ExitCode;
use std::{env, io};

fn main(rt: HostRuntime) -> ExitCode {
    let mut source = StdSource::new(rt.reader());
    let mut sink = StdSink::new(io::writer(&rt));
    let mut count = StepCount::new();
    let status = match words(&rt) {
        Ok(words) => explore(
            &rt,
            rt.alloc(),
            &words,
            &mut source,
            &mut sink,
            &OpenGate,
            &mut count,
        ),
        Err(error) if error.kind() == io::ErrorKind::OutOfMemory => Status::NoMemory,
        // A word that isn't UTF-8 is refused as any other wrong word is.
        Err(_) => explore(
            &rt,
            rt.alloc(),
            &[],
            &mut source,
            &mut sink,
            &OpenGate,
            &mut count,
        ),
    };
    tell(&rt, status);
    ExitCode::from(status.number())
}

// Says on standard error what failed, where standard output doesn't tell it.
fn tell(rt: &HostRuntime, status: Status) {
    let failed = match status {
        Status::SourceFailed => "the input can't be read",
        Status::SinkFailed => "the output can't be written",
        Status::NoMemory => "memory is wanting, or a formula is too large to build",
        Status::Done
        | Status::NotAccepted
        | Status::WordsRefused
        | Status::InputRefused
        | Status::ModelRefused => return,
    };
    let _told = eprintln!(rt; "explore: {failed}");
}

// The words after the program's name.
fn words(rt: &HostRuntime) -> io::Result<Vec<String>> {
    let mut words = Vec::new(rt.alloc());
    for word in env::args(rt)?.skip(1) {
        words.push(word)?;
    }
    Ok(words)
}
