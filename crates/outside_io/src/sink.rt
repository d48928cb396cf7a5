// Where bytes go.
ghost use Rattle.std.specs.Prelude.{◌≡◌, ℕ, ◌<◌, ◌≤◌, ◌⊎◌, ◌↔◌, List, ◌++◌, length, take, Ok, IfOk, OnOk, OnErr};
ghost use Rattle.outside_io.specs.Count.{Rose};
ghost use Rattle.outside_io.specs.Front.{AppendsPart};

use crate::source::Failed;
use crate::status::Status;

/// Where bytes go.
pub trait Sink {
    /// Whether the sink tells its bytes. That never changes.
    ghost tells: { Self → Type 0 };

    /// The bytes that were written, where the sink tells them.
    ghost written: { Self → List ℕ };

    /// How many faults there were. It never falls.
    ghost faults: { Self → ℕ };

    /// Appends the front of a piece, and answers how many of its bytes: at least one.
    /// On an empty piece it answers 0, and all is as before. `Failed` means a fault, and nothing was appended.
    fn write(&mut self, piece: &[u8]) -> Result<usize, Failed>
        ensures tells { tells self.new ↔ tells self.old }
        ensures faults { faults self.old ≤ faults self.new }

        ensures most { IfOk result (λ n. n ≤ length piece.now) }
        ensures least { 0 < length piece.now → IfOk result (λ n. 0 < n) }
        ensures bytes { tells self.old → IfOk result (λ n. written self.new ≡ written self.old ++ take n piece.now) }

        ensures failed { OnErr result (Rose (faults self.old) (faults self.new)) }
        ensures not_appended { tells self.old → OnErr result (written self.new ≡ written self.old) }

        ensures empty { length piece.now ≡ 0 → (result ≡ Ok 0) × (self.new ≡ self.old) };
}

/// Writes all the bytes. At `Failed` some of them are written, from their front on, and not all.
pub fn write_all<K: Sink>(sink: &mut K, bytes: &[u8]) -> Result<(), Failed>
    ensures tells { K.tells sink.new ↔ K.tells sink.old }
    ensures faults { K.faults sink.old ≤ K.faults sink.new }

    ensures all { K.tells sink.old → OnOk result (K.written sink.new ≡ K.written sink.old ++ bytes.now) }

    ensures failed { OnErr result (Rose (K.faults sink.old) (K.faults sink.new)) }
    ensures part { K.tells sink.old → OnErr result (AppendsPart (K.written sink.old) (K.written sink.new) bytes.now) }
{
    let mut taken = 0;
    while taken < bytes.len() {
        taken += sink.write(&bytes[taken..])?;
    }
    Ok(())
}

/// Writes a text, and gives the status that goes with it, or that the sink failed: then some of the text is written, from
/// its front on, and not all.
pub fn finish<K: Sink>(sink: &mut K, status: Status, text: &[u8]) -> Status
    ensures status { (result ≡ status) ⊎ (result ≡ Status.SinkFailed) }

    ensures tells { K.tells sink.new ↔ K.tells sink.old }
    ensures faults { K.faults sink.old ≤ K.faults sink.new }
    ensures failed { result ≡ Status.SinkFailed → (status ≡ Status.SinkFailed) ⊎ Rose (K.faults sink.old) (K.faults sink.new) }

    ensures all { K.tells sink.old → (result ≡ Status.SinkFailed) ⊎ (K.written sink.new ≡ K.written sink.old ++ text.now) }
    ensures part { K.tells sink.old → result ≡ Status.SinkFailed → (status ≡ Status.SinkFailed) ⊎ AppendsPart (K.written sink.old) (K.written sink.new) text.now }

    // A text whose status says so itself is written all the same.
    ensures written { K.tells sink.old → status ≡ Status.SinkFailed
        → (K.written sink.new ≡ K.written sink.old ++ text.now) ⊎ (Rose (K.faults sink.old) (K.faults sink.new) × AppendsPart (K.written sink.old) (K.written sink.new) text.now) }
{
    match write_all(sink, text) {
        Ok(()) => status,
        Err(_) => Status::SinkFailed,
    }
}
