// What is wrong with the names of a model, or with a command's scope.
ghost use Rattle.std.specs.Prelude.{◌≡◌};

use alloy_lex::Place;
use std::alloc::{AllocError, AllocFailed};
use thiserror::Error;

/// Why names, or the sizes of a command, are refused.
#[derive(Clone, Copy, Debug, PartialEq, Eq, Error)]
pub enum NameFault {
    /// A name that stands for nothing.
    #[error("{}:{}: the name stands for nothing", .place.line, .place.column)]
    Unknown { place: Place },
    /// A name that is declared, or listed in a scope, for the second time.
    #[error("{}:{}: the name stands here for the second time", .place.line, .place.column)]
    Twice { place: Place },
    /// A signature that is its own parent over one or more steps.
    #[error("{}:{}: the signature is above itself", .place.line, .place.column)]
    Cycle { place: Place },
    /// A predicate or function that calls itself over one or more steps.
    #[error("{}:{}: it calls itself", .place.line, .place.column)]
    Recursive { place: Place },
    /// A scope lists a name that is no signature.
    #[error("the scope lists a name that is no signature")]
    UnknownScope,
    /// A top-level signature has no size.
    #[error("a signature has no size")]
    NoScope,
    /// A number of a scope, or a sum of such numbers, is above 32.
    #[error("a size is above 32")]
    ScopeTooLarge,
    /// There are more than 64 atoms.
    #[error("more than 64 atoms")]
    TooManyAtoms,
    /// A call with another number of arguments than there are parameters.
    #[error("{}:{}: another number of arguments is wanted", .place.line, .place.column)]
    Arguments { place: Place },
    /// A variable that need not be a single atom.
    #[error("{}:{}: the variable need not be one atom", .place.line, .place.column)]
    HigherOrder { place: Place },
    #[error("no memory")]
    Memory,
}

impl From<AllocError> for NameFault {
    ghost use Rattle.named_model.specs.declared.fault.NameFault.TheVariants.{Memory};

    ghost from_gives = { λ _ e. e ≡ Memory };

    fn from(_e: AllocError) -> Self {
        NameFault::Memory
    }
}

impl<T: Drop> From<AllocFailed<T>> for NameFault {
    ghost use Rattle.named_model.specs.declared.fault.NameFault.TheVariants.{Memory};

    ghost from_gives = { λ _ e. e ≡ Memory };

    fn from(_e: AllocFailed<T>) -> Self {
        NameFault::Memory
    }
}
