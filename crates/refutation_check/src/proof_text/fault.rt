// Why bytes are no proof text.
ghost use Rattle.std.specs.Prelude.{◌≡◌};

use std::alloc::{AllocError, AllocFailed};
use thiserror::Error;

/// Why bytes are no proof text: there are too many, or it is the first fault of the first line that has one. Lines are
/// numbered from 1.
#[derive(Clone, Copy, Debug, PartialEq, Eq, Error)]
pub enum ProofFault {
    /// The line has another form, or it is a clause's and a step's stands before it.
    #[error("line {line} is no clause and no step")]
    BadLine { line: u32 },
    /// A number of the line is above 2,147,483,647.
    #[error("line {line} has a number above 2147483647")]
    NumberTooLarge { line: u32 },
    /// A variable stands with both signs among the line's literals.
    #[error("line {line} has a variable with both signs")]
    Tautology { line: u32 },
    /// There are more than 268,435,456 bytes.
    #[error("there are more than 268435456 bytes")]
    TooLong,
    /// There was no memory for what was read.
    #[error("no memory")]
    Memory,
}

impl From<AllocError> for ProofFault {
    ghost use Rattle.refutation_check.specs.declared.proof_text.fault.ProofFault.TheVariants.{Memory};

    ghost from_gives = { λ _ fault. fault ≡ Memory };

    fn from(_: AllocError) -> Self {
        ProofFault::Memory
    }
}

impl<T: Drop> From<AllocFailed<T>> for ProofFault {
    ghost use Rattle.refutation_check.specs.declared.proof_text.fault.ProofFault.TheVariants.{Memory};

    ghost from_gives = { λ _ fault. fault ≡ Memory };

    fn from(_: AllocFailed<T>) -> Self {
        ProofFault::Memory
    }
}
