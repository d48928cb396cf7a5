// Why a model and a command have no problem.
ghost use Rattle.std.specs.Prelude.{◌≡◌};

use named_model::NameFault;
use std::alloc::{AllocError, AllocFailed};
use thiserror::Error;

/// Why a model and a command have no problem.
#[derive(Clone, Copy, Debug, PartialEq, Eq, Error)]
pub enum LowerFault {
    /// There is no command of that number.
    #[error("no command has that number")]
    NoCommand,
    /// The signatures have no sizes under the command.
    #[error(transparent)]
    Scope(NameFault),
    /// There are more than 128 signatures and fields.
    #[error("more than 128 signatures and fields")]
    TooManyRelations,
    /// There are more than 4,096 cells.
    #[error("more than 4096 cells")]
    TooManyCells,
    /// The problem's formula has more than 262,144 terms.
    #[error("more than 262144 terms")]
    TooManyTerms,
    /// The problem's formula would take more nodes, or nest deeper, than there is room for.
    #[error("a formula is too large to build")]
    TooLarge,
    #[error("no memory")]
    Memory,
}

/// What was to be built has more nodes, or nests deeper, than there is room for.
#[derive(Clone, Copy, Debug, PartialEq, Eq, Error)]
#[error("too large to build")]
pub struct TooLarge;

/// Why something isn't built that a model has.
#[derive(Clone, Copy, Debug, PartialEq, Eq, Error)]
pub enum LowerStop {
    /// It has more nodes, or nests deeper, than there is room for.
    #[error("too large to build")]
    TooLarge,
    #[error("no memory")]
    Memory,
}

impl From<AllocError> for LowerFault {
    ghost use Rattle.lowering_rules.specs.declared.fault.LowerFault.TheVariants.{Memory};

    ghost from_gives = { λ _ e. e ≡ Memory };

    fn from(_e: AllocError) -> Self {
        LowerFault::Memory
    }
}

impl<T: Drop> From<AllocFailed<T>> for LowerFault {
    ghost use Rattle.lowering_rules.specs.declared.fault.LowerFault.TheVariants.{Memory};

    ghost from_gives = { λ _ e. e ≡ Memory };

    fn from(_e: AllocFailed<T>) -> Self {
        LowerFault::Memory
    }
}

impl From<LowerStop> for LowerFault {
    ghost use Rattle.lowering_rules.specs.Stops.{fault_of};

    ghost from_gives = { λ stop e. e ≡ fault_of stop };

    fn from(stop: LowerStop) -> Self {
        match stop {
            LowerStop::TooLarge => LowerFault::TooLarge,
            LowerStop::Memory => LowerFault::Memory,
        }
    }
}

impl From<TooLarge> for LowerStop {
    ghost use Rattle.lowering_rules.specs.declared.fault.LowerStop.TheVariants as stop;

    ghost from_gives = { λ _ e. e ≡ stop.TooLarge };

    fn from(_e: TooLarge) -> Self {
        LowerStop::TooLarge
    }
}

impl From<AllocError> for LowerStop {
    ghost use Rattle.lowering_rules.specs.declared.fault.LowerStop.TheVariants.{Memory};

    ghost from_gives = { λ _ e. e ≡ Memory };

    fn from(_e: AllocError) -> Self {
        LowerStop::Memory
    }
}

impl<T: Drop> From<AllocFailed<T>> for LowerStop {
    ghost use Rattle.lowering_rules.specs.declared.fault.LowerStop.TheVariants.{Memory};

    ghost from_gives = { λ _ e. e ≡ Memory };

    fn from(_e: AllocFailed<T>) -> Self {
        LowerStop::Memory
    }
}
