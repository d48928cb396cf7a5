// Runs of the program over sources and sinks in memory.
use explorer_cli::{Gate, OpenGate, StepCount, explore};
use outside_io::{MemSink, MemSource};
use std::alloc::{AllocError, Global};
use std::fmt::Write;
use std::process::Abort;
use std::sync::Wait;
use std::test::Fail;
use std::thread::Threads;

fn owned(alloc: Global, words: &[&str]) -> Result<Vec<String>, AllocError> {
    let mut owned = Vec::new(alloc);
    for word in words {
        owned.push(String::from_str(alloc, word)?)?;
    }
    Ok(owned)
}

// A source of these bytes, where the calls of these numbers fail.
fn source(alloc: Global, script: &[u8], failing: &[u32]) -> Result<MemSource, AllocError> {
    let script = Vec::from_slice(alloc, script)?;
    let failing = Vec::from_slice(alloc, failing)?;
    Ok(MemSource::new(script, 4, failing))
}

// A sink where the calls of these numbers fail.
fn sink(alloc: Global, failing: &[u32]) -> Result<MemSink, AllocError> {
    let failing = Vec::from_slice(alloc, failing)?;
    MemSink::new(alloc, 50000, 10, failing)
}

// A source of these bytes, sixteen a call, where the calls of these numbers fail.
fn wide_source(alloc: Global, script: &[u8], failing: &[u32]) -> Result<MemSource, AllocError> {
    let script = Vec::from_slice(alloc, script)?;
    let failing = Vec::from_slice(alloc, failing)?;
    Ok(MemSource::new(script, 16, failing))
}

// A sink of sixteen bytes a call, where the calls of these numbers fail.
fn wide_sink(alloc: Global, failing: &[u32]) -> Result<MemSink, AllocError> {
    let failing = Vec::from_slice(alloc, failing)?;
    MemSink::new(alloc, 50000, 16, failing)
}

// The number of the program's status.
fn status<R: Threads + Wait + Abort + Sync>(
    rt: &R,
    alloc: Global,
    words: &[String],
    source: &mut MemSource,
    sink: &mut MemSink,
) -> u8 {
    let mut count = StepCount::new();
    explore(rt, alloc, words, source, sink, &OpenGate, &mut count).number()
}

/// The status and the output for these words and this script, where the calls of these numbers fail.
pub fn explored<R: Threads + Wait + Abort + Sync>(
    rt: &R,
    alloc: Global,
    words: &[&str],
    script: &[u8],
    failing_reads: &[u32],
    failing_writes: &[u32],
) -> Result<(u8, String), AllocError> {
    let owned = owned(alloc, words)?;
    let mut source = source(alloc, script, failing_reads)?;
    let mut sink = sink(alloc, failing_writes)?;
    let status = status(rt, alloc, &owned, &mut source, &mut sink);
    Ok((status, String::from_utf8_lossy(alloc, sink.bytes())?))
}

/// The same with sixteen bytes a call.
pub fn explored_widely<R: Threads + Wait + Abort + Sync>(
    rt: &R,
    alloc: Global,
    words: &[&str],
    script: &[u8],
    failing_reads: &[u32],
    failing_writes: &[u32],
) -> Result<(u8, String), AllocError> {
    let owned = owned(alloc, words)?;
    let mut source = wide_source(alloc, script, failing_reads)?;
    let mut sink = wide_sink(alloc, failing_writes)?;
    let status = status(rt, alloc, &owned, &mut source, &mut sink);
    Ok((status, String::from_utf8_lossy(alloc, sink.bytes())?))
}

/// The status and the output for these words and this script, where workers pass this gate.
pub fn explored_through<R: Threads + Wait + Abort + Sync, G: Gate + Sync>(
    rt: &R,
    alloc: Global,
    gate: &G,
    words: &[&str],
    script: &str,
) -> Result<(u8, String), AllocError> {
    let owned = owned(alloc, words)?;
    let mut source = wide_source(alloc, script.as_bytes(), &[])?;
    let mut sink = wide_sink(alloc, &[])?;
    let mut count = StepCount::new();
    let status = explore(rt, alloc, &owned, &mut source, &mut sink, gate, &mut count).number();
    Ok((status, String::from_utf8_lossy(alloc, sink.bytes())?))
}

/// The status and the output for `run` with so many workers, who pass this gate, and this script.
pub fn run_through<R: Threads + Wait + Abort + Sync, G: Gate + Sync>(
    rt: &R,
    alloc: Global,
    gate: &G,
    workers: u32,
    script: &str,
) -> Result<(u8, String), AllocError> {
    let workers = format!(in alloc; "{workers}")?;
    explored_through(rt, alloc, gate, &["run", "--workers", &workers], script)
}

/// The status and the output for the word `run` and this script.
pub fn run<R: Threads + Wait + Abort + Sync>(
    rt: &R,
    alloc: Global,
    script: &str,
) -> Result<(u8, String), AllocError> {
    explored(rt, alloc, &["run"], script.as_bytes(), &[], &[])
}

/// Whether these words with these bytes to read have this status and this output.
pub fn ends<R: Threads + Wait + Abort + Sync>(
    rt: &R,
    alloc: Global,
    words: &[&str],
    script: &[u8],
    status: u8,
    expected: &str,
) -> Result<(), Fail> {
    let (found, text) = explored(rt, alloc, words, script, &[], &[])?;
    assert_eq!(rt; text.as_str(), expected);
    assert_eq!(rt; found, status);
    Ok(())
}

/// Whether this script has this status and this output.
pub fn answered<R: Threads + Wait + Abort + Sync>(
    rt: &R,
    alloc: Global,
    script: &str,
    status: u8,
    expected: &str,
) -> Result<(), Fail> {
    let (found, text) = run(rt, alloc, script)?;
    assert_eq!(rt; text.as_str(), expected, "{script}");
    assert_eq!(rt; found, status, "{script}");
    Ok(())
}

/// Whether these scripts have this status and these outputs.
pub fn answers<R: Threads + Wait + Abort + Sync>(
    rt: &R,
    alloc: Global,
    status: u8,
    rows: &[(&str, &str)],
) -> Result<(), Fail> {
    for (script, expected) in rows {
        answered(rt, alloc, script, status, expected)?;
    }
    Ok(())
}

/// Whether a session on this model that is given these commands has these lines of output.
pub fn served<R: Threads + Wait + Abort + Sync>(
    rt: &R,
    alloc: Global,
    model: &str,
    commands: &str,
    lines: &str,
) -> Result<(), Fail> {
    let script = format!(in alloc; "== model m\n{model}\n== session a m 1\n{commands}")?;
    let expected = format!(in alloc; "== a\n{lines}")?;
    answered(rt, alloc, &script, 0, &expected)
}

/// Whether sessions on these models that are given these commands have these lines of output.
pub fn serves<R: Threads + Wait + Abort + Sync>(
    rt: &R,
    alloc: Global,
    rows: &[(&str, &str, &str)],
) -> Result<(), Fail> {
    for (model, commands, lines) in rows {
        served(rt, alloc, model, commands, lines)?;
    }
    Ok(())
}

// Adds a line: a beginning, the line's number from 0 where it is wanted, and an end.
fn push_line(
    script: &mut String,
    (beginning, numbered, end): (&str, bool, &str),
    number: u32,
) -> Result<(), Fail> {
    if numbered {
        return Ok(write!(script, "{beginning}{number}{end}")?);
    }
    Ok(write!(script, "{beginning}{end}")?)
}

/// So many lines behind these: a beginning, the line's number from 0 where it is wanted, and an end.
pub fn grown(
    alloc: Global,
    front: &str,
    line: (&str, bool, &str),
    count: u32,
) -> Result<String, Fail> {
    let mut script = String::from_str(alloc, front)?;
    for number in 0..count {
        push_line(&mut script, line, number)?;
    }
    Ok(script)
}
