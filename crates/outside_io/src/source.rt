// Where bytes come from.
ghost use Rattle.std.specs.Prelude.{◌≡◌, ℕ, ◌+◌, ◌<◌, ◌≤◌, ◌↔◌, List, [], ◌++◌, length, take, drop, Ok, IfOk, OnOk, OnErr, IsErrOf, vec_len};
ghost use Rattle.outside_io.specs.Count.{Rose};
ghost use Rattle.outside_io.specs.Front.{TakesFront};

use std::alloc::{AllocError, Global};
use thiserror::Error;

/// A read or a write failed. The count of faults of the source or the sink rose in that call, or stands at its last value.
#[derive(Clone, Copy, Debug, PartialEq, Eq, Error)]
#[error("the source or the sink failed")]
pub struct Failed;

/// Where bytes come from.
pub trait Source {
    /// Whether the source tells its bytes. That never changes.
    ghost tells: { Self → Type 0 };

    /// The bytes that are left, where the source tells them.
    ghost left: { Self → List ℕ };

    /// How many faults there were. It never falls.
    ghost faults: { Self → ℕ };

    /// Reads some of the bytes that are left into the front of a buffer, and answers how many: 0 exactly at the end.
    /// On an empty buffer it answers 0, and all is as before. `Failed` means a fault, and nothing was taken.
    fn read(&mut self, into: &mut [u8]) -> Result<usize, Failed>
        ensures tells { tells self.new ↔ tells self.old }
        ensures faults { faults self.old ≤ faults self.new }

        ensures most { IfOk result (λ n. n ≤ length into.new) }
        ensures bytes { tells self.old → IfOk result (λ n. left self.old ≡ take n into.new ++ left self.new) }
        ensures end { tells self.old → 0 < length into.old → IfOk result (λ n. (n ≡ 0) ↔ (left self.old ≡ [])) }

        ensures failed { OnErr result (Rose (faults self.old) (faults self.new)) }
        ensures not_taken { tells self.old → OnErr result (left self.new ≡ left self.old) }

        ensures empty { length into.old ≡ 0 → (result ≡ Ok 0) × (self.new ≡ self.old) };
}

/// Why not all was read.
#[derive(Clone, Copy, Debug, PartialEq, Eq, Error)]
pub enum ReadFault {
    /// The source failed.
    #[error("the source failed")]
    Failed,
    /// There was no memory for the bytes.
    #[error("no memory")]
    Memory,
}

impl From<Failed> for ReadFault {
    ghost use Rattle.outside_io.specs.declared.source.ReadFault.TheVariants.{Failed};

    ghost from_gives = { λ _ fault. fault ≡ Failed };

    fn from(_: Failed) -> Self {
        ReadFault::Failed
    }
}

impl From<AllocError> for ReadFault {
    ghost use Rattle.outside_io.specs.declared.source.ReadFault.TheVariants.{Memory};

    ghost from_gives = { λ _ fault. fault ≡ Memory };

    fn from(_: AllocError) -> Self {
        ReadFault::Memory
    }
}

// How many bytes `read_all` asks for at once.
const PIECE: usize = 4096;

/// Reads to the end, or to one byte beyond the limit: more bytes than the limit mean that there were too many.
/// A front of what was left is taken, after an error too, and then it is lost.
pub fn read_all<S: Source>(
    alloc: Global,
    source: &mut S,
    limit: usize,
) -> Result<Vec<u8>, ReadFault>
    ensures tells { S.tells source.new ↔ S.tells source.old }
    ensures faults { S.faults source.old ≤ S.faults source.new }

    ensures bound { IfOk result (λ bytes. vec_len bytes ≤ limit + 1) }
    ensures bytes { S.tells source.old → IfOk result (λ bytes. bytes.items ≡ take (limit + 1) (S.left source.old)) }
    ensures rest { S.tells source.old → OnOk result (S.left source.new ≡ drop (limit + 1) (S.left source.old)) }

    // Within the limit, that is all of it.
    ensures whole { S.tells source.old → length (S.left source.old) ≤ limit →
        IfOk result (λ bytes. (bytes.items ≡ S.left source.old) × (S.left source.new ≡ [])) }

    ensures failed { IsErrOf result ReadFault.Failed → Rose (S.faults source.old) (S.faults source.new) }
    ensures taken { S.tells source.old → TakesFront (limit + 1) (S.left source.old) (S.left source.new) }
{
    let mut bytes = Vec::new(alloc);
    let mut buffer = [0; PIECE];
    while bytes.len() <= limit {
        let most = (limit - bytes.len()).min(PIECE - 1) + 1;
        let count = source.read(&mut buffer[..most])?;
        if count == 0 {
            break;
        }
        bytes.extend_from_slice(&buffer[..count])?;
    }
    Ok(bytes)
}
