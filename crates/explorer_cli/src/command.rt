// What the words say is done.
ghost use Rattle.std.specs.Prelude.{◌≡◌, ◌≢◌, ◌⊎◌, ◌+◌, ℕ, List, MatchOption};
ghost use Rattle.outside_io.specs.Count.{Rose};
ghost use Rattle.proof_command.specs.Inputs.{AnswersInput, IsWritten};
ghost use Rattle.explorer_cli.specs.Learnt.{MayLearn, HasLearnt};
ghost use Rattle.explorer_cli.specs.Outcome.{HasNumbersInRange, HasFailed, IsStatusOf, IsAnswerTo, limit_of};

use crate::answer::answer_to;
use command_words::Command;
use explorer_run::{Gate, StepCount};
use outside_io::{ReadFault, Sink, Source, Status, finish, read_all};
use std::alloc::Global;
use std::sync::Wait;
use std::thread::Threads;

/// Reads the input to the source's end, unless the command has none, answers it as the command does, and writes that. Gives the
/// status: that of the answer, or that the source failed, the sink failed, or memory was wanting. The count is raised by the steps
/// that searches learn.
pub fn do_command<R: Threads + Wait + Sync, S: Source, K: Sink, G: Gate + Sync>(
    rt: &R,
    alloc: Global,
    command: Command,
    source: &mut S,
    sink: &mut K,
    gate: &G,
    count: &mut StepCount,
) -> Status
    requires numbers { HasNumbersInRange command }
    ensures status { HasFailed result ⊎ IsStatusOf command result }
    ensures unread { limit_of command ≡ 0 → (source.new ≡ source.old) × (result ≢ Status.SourceFailed) }
    ensures source_failed { result ≡ Status.SourceFailed → Rose (S.faults source.old) (S.faults source.new) × (sink.new ≡ sink.old) }
    ensures sink_failed { result ≡ Status.SinkFailed → Rose (K.faults sink.old) (K.faults sink.new) }
    ensures no_memory { result ≡ Status.NoMemory → sink.new ≡ sink.old }
    ensures answer { AnswersInput (limit_of command) (IsAnswerTo command) (S.tells source.old) (S.left source.old) (S.left source.new)
        (K.tells sink.old) (K.written sink.old) (K.written sink.new) result }
    ensures learnt { HasLearnt command (S.tells source.old) (S.left source.old) count.old count.new }
{
    match most_bytes(command) {
        Some(most) => answer_input(rt, alloc, command, most, source, sink, gate, count),
        None => write_answer(rt, alloc, command, &[], sink, gate, count),
    }
}

// How many bytes the input of a command may have, where it has one.
fn most_bytes(command: Command) -> Option<usize>
    ensures { MatchOption result (limit_of command ≡ 0) (λ most. most + 1 ≡ limit_of command) }
{
    match command {
        Command::Run { .. }
        | Command::Distinct { .. }
        | Command::Assert { .. }
        | Command::Facts { .. }
        | Command::Crew { .. } => Some(script_format::MOST_BYTES),
        Command::Check => Some(refutation_check::MOST_BYTES),
        Command::Load { .. } => None,
    }
}

// Reads the input, which may have so many bytes, and writes the answer to it.
fn answer_input<R: Threads + Wait + Sync, S: Source, K: Sink, G: Gate + Sync>(
    rt: &R,
    alloc: Global,
    command: Command,
    most: usize,
    source: &mut S,
    sink: &mut K,
    gate: &G,
    count: &mut StepCount,
) -> Status
    requires numbers { HasNumbersInRange command }
    requires most { most + 1 ≡ limit_of command }
    ensures status { HasFailed result ⊎ IsStatusOf command result }
    ensures source_failed { result ≡ Status.SourceFailed → Rose (S.faults source.old) (S.faults source.new) × (sink.new ≡ sink.old) }
    ensures sink_failed { result ≡ Status.SinkFailed → Rose (K.faults sink.old) (K.faults sink.new) }
    ensures no_memory { result ≡ Status.NoMemory → sink.new ≡ sink.old }
    ensures answer { AnswersInput (limit_of command) (IsAnswerTo command) (S.tells source.old) (S.left source.old) (S.left source.new)
        (K.tells sink.old) (K.written sink.old) (K.written sink.new) result }
    ensures learnt { HasLearnt command (S.tells source.old) (S.left source.old) count.old count.new }
{
    match read_all(alloc, source, most) {
        Ok(bytes) => write_answer(rt, alloc, command, &bytes, sink, gate, count),
        Err(ReadFault::Failed) => Status::SourceFailed,
        Err(ReadFault::Memory) => Status::NoMemory,
    }
}

// Writes the answer to what was read.
fn write_answer<R: Threads + Wait + Sync, K: Sink, G: Gate + Sync>(
    rt: &R,
    alloc: Global,
    command: Command,
    bytes: &[u8],
    sink: &mut K,
    gate: &G,
    count: &mut StepCount,
) -> Status
    requires numbers { HasNumbersInRange command }
    ensures status { (result ≡ Status.SinkFailed) ⊎ (result ≡ Status.NoMemory) ⊎ IsStatusOf command result }
    ensures was_read { result ≢ Status.SourceFailed }
    ensures failed { result ≡ Status.SinkFailed → Rose (K.faults sink.old) (K.faults sink.new) }
    ensures no_memory { result ≡ Status.NoMemory → sink.new ≡ sink.old }
    ensures answer { (result ≡ Status.NoMemory) ⊎ ((status : Status) × (text : List ℕ) × IsAnswerTo command bytes.now status text
        × IsWritten status text (K.tells sink.old) (K.written sink.old) (K.written sink.new) result) }
    ensures learnt { MayLearn command bytes.now count.old count.new }
{
    match answer_to(rt, alloc, gate, command, bytes, count) {
        Ok(answer) => finish(sink, answer.status, &answer.text),
        Err(_) => Status::NoMemory,
    }
}
