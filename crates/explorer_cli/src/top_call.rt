// The top call.
ghost use Rattle.std.specs.Prelude.{◌≡◌, ◌≢◌, ◌⊎◌, ◌++◌, ℕ};
ghost use Rattle.command_words.specs.declared.reading.Command.{Command as Said};
ghost use Rattle.command_words.specs.declared.reading.Command.TheVariants.{Load};
ghost use Rattle.command_words.specs.Words.{Says, SaysNone};
ghost use Rattle.command_words.specs.Read.{texts};
ghost use Rattle.outside_io.specs.Count.{Rose};
ghost use Rattle.outside_io.specs.Front.{AppendsPart};
ghost use Rattle.proof_command.specs.Inputs.{AnswersInput};
ghost use Rattle.explorer_cli.specs.Learnt.{HasLearnt};
ghost use Rattle.explorer_cli.specs.Outcome.{HasFailed, IsStatusOf, IsAnswerTo, limit_of, words_line};

use crate::command::do_command;
use command_words::command_of;
use explorer_run::{Gate, StepCount};
use outside_io::{Sink, Source, Status, finish};
use std::alloc::Global;
use std::sync::Wait;
use std::thread::Threads;

/// Reads what the source has, does what the words say, writes to the sink, and gives the program's status. Where the source or the
/// sink doesn't tell its bytes, the clauses say nothing of these.
///
/// Sessions run side by side, by as many workers as the words say, each in a thread of its own; a worker waits for its turn, and at
/// the gate before each command, or in a crew before each round. What the clauses say holds where the call returns.
pub fn explore<R: Threads + Wait + Sync, S: Source, K: Sink, G: Gate + Sync>(
    rt: &R,
    alloc: Global,
    words: &[String],
    source: &mut S,
    sink: &mut K,
    gate: &G,
    count: &mut StepCount,
) -> Status
    // The words are refused exactly where they say no command; then nothing is read. Reading the words may want memory.
    ensures refused { SaysNone (texts words.now) → ((result ≡ Status.WordsRefused) ⊎ (result ≡ Status.SinkFailed) ⊎ (result ≡ Status.NoMemory)) × (source.new ≡ source.old) }
    ensures words_line { K.tells sink.old → result ≡ Status.WordsRefused → K.written sink.new ≡ K.written sink.old ++ words_line }
    ensures words_part { K.tells sink.old → SaysNone (texts words.now) → result ≡ Status.SinkFailed → AppendsPart (K.written sink.old) (K.written sink.new) words_line }

    // A fault comes only where the count of the object that was handed in rose; want of memory writes nothing.
    ensures source_failed { result ≡ Status.SourceFailed → Rose (S.faults source.old) (S.faults source.new) × (sink.new ≡ sink.old) }
    ensures sink_failed { result ≡ Status.SinkFailed → Rose (K.faults sink.old) (K.faults sink.new) }
    ensures no_memory { result ≡ Status.NoMemory → sink.new ≡ sink.old }

    // Words that say a command are taken: whatever source and sink tell, the status is one of that command's answers, or tells
    // that the source or the sink failed, or want of memory.
    ensures taken { (c : Said) → Says (texts words.now) c → HasFailed result ⊎ IsStatusOf c result }

    // `load` reads nothing, so that the source can't fail.
    ensures unread { (number workers : ℕ) → Says (texts words.now) (Load number workers) → (source.new ≡ source.old) × (result ≢ Status.SourceFailed) }

    // Another command reads all that the source had, and of more than its input may have just one byte beyond that; where the source
    // failed or memory was wanting, it takes no more. What is written is its answer to that, and where the sink failed a part of it.
    ensures answer { (c : Said) → Says (texts words.now) c → AnswersInput (limit_of c) (IsAnswerTo c) (S.tells source.old) (S.left source.old) (S.left source.new)
        (K.tells sink.old) (K.written sink.old) (K.written sink.new) result }

    // The steps that searches learn raise the count: by no more than the script's sessions may take together, whatever the status.
    ensures idle { SaysNone (texts words.now) → count.new ≡ count.old }
    ensures learnt { (c : Said) → Says (texts words.now) c → HasLearnt c (S.tells source.old) (S.left source.old) count.old count.new }
{
    match command_of(alloc, words) {
        Err(_) => Status::NoMemory,
        Ok(None) => finish(sink, Status::WordsRefused, b"fault words\n"),
        Ok(Some(command)) => do_command(rt, alloc, command, source, sink, gate, count),
    }
}
