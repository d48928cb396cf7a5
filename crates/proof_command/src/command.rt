// The command.
ghost use Rattle.std.specs.Prelude.{◌≡◌, ◌⊎◌, ℕ, List};
ghost use Rattle.outside_io.specs.Count.{Rose};
ghost use Rattle.proof_command.specs.Answer.{IsCheckStatus, IsAnswerTo};
ghost use Rattle.proof_command.specs.Inputs.{AnswersInput, IsWritten};

use crate::answer::answer_to;
use outside_io::{ReadFault, Sink, Source, Status, finish, read_all};
use refutation_check::MOST_BYTES;
use std::alloc::Global;

/// Reads a proof text to the source's end, checks it, and writes the line of the verdict or of the fault. Gives the
/// status: of the verdict or of the fault, or that the source failed, the sink failed, or memory was wanting.
/// Where the source or the sink doesn't tell its bytes, the clauses say nothing of these.
pub fn check_proof<S: Source, K: Sink>(alloc: Global, source: &mut S, sink: &mut K) -> Status
    ensures status { IsCheckStatus result }

    // A fault comes only where the count of the object that was handed in rose; want of memory writes nothing.
    ensures source_failed { result ≡ Status.SourceFailed → Rose (S.faults source.old) (S.faults source.new) × (sink.new ≡ sink.old) }
    ensures sink_failed { result ≡ Status.SinkFailed → Rose (K.faults sink.old) (K.faults sink.new) }
    ensures no_memory { result ≡ Status.NoMemory → sink.new ≡ sink.old }

    // All that the source had is read, and of more than a proof text may have just one byte beyond that; where the source failed or
    // memory was wanting, no more is taken. What is written is the answer to it, and where the sink failed a part of that.
    ensures answer { AnswersInput 268435457 IsAnswerTo (S.tells source.old) (S.left source.old) (S.left source.new)
        (K.tells sink.old) (K.written sink.old) (K.written sink.new) result }
{
    match read_all(alloc, source, MOST_BYTES) {
        Ok(bytes) => write_answer(alloc, &bytes, sink),
        Err(ReadFault::Failed) => Status::SourceFailed,
        Err(ReadFault::Memory) => Status::NoMemory,
    }
}

// Writes the answer to what was read.
fn write_answer<K: Sink>(alloc: Global, bytes: &[u8], sink: &mut K) -> Status
    ensures status { (result ≡ Status.Done) ⊎ (result ≡ Status.NotAccepted) ⊎ (result ≡ Status.InputRefused) ⊎ (result ≡ Status.SinkFailed) ⊎ (result ≡ Status.NoMemory) }
    ensures failed { result ≡ Status.SinkFailed → Rose (K.faults sink.old) (K.faults sink.new) }
    ensures no_memory { result ≡ Status.NoMemory → sink.new ≡ sink.old }
    ensures answer { (result ≡ Status.NoMemory) ⊎ ((status : Status) × (text : List ℕ) × IsAnswerTo bytes.now status text
        × IsWritten status text (K.tells sink.old) (K.written sink.old) (K.written sink.new) result) }
{
    match answer_to(alloc, bytes) {
        Ok(answer) => finish(sink, answer.status, &answer.text),
        Err(_) => Status::NoMemory,
    }
}
