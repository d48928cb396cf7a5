// What is wrong with the sorts and arities of a model.
ghost use Rattle.std.specs.Prelude.{◌≡◌};

use alloy_lex::Place;
use std::alloc::{AllocError, AllocFailed};
use thiserror::Error;

/// Why a part of a model has no sort or no arity.
#[derive(Clone, Copy, Debug, PartialEq, Eq, Error)]
pub enum TypeFault {
    /// Relations of different arities where one arity is wanted, or a join that leaves nothing.
    #[error("{}:{}: another arity is wanted", .place.line, .place.column)]
    Arity { place: Place },
    /// A relation that isn't unary where one has to be.
    #[error("{}:{}: a set is wanted", .place.line, .place.column)]
    NotUnary { place: Place },
    /// A relation that isn't binary where one has to be.
    #[error("{}:{}: a relation of arity 2 is wanted", .place.line, .place.column)]
    NotBinary { place: Place },
    /// A relation of an arity above 3.
    #[error("{}:{}: the arity is above 3", .place.line, .place.column)]
    ArityTooLarge { place: Place },
    /// A formula, a number or a relation where another of these is wanted.
    #[error("{}:{}: another sort is wanted", .place.line, .place.column)]
    Sort { place: Place },
    /// A name of several fields of which none fits, or more than one.
    #[error("{}:{}: several fields have the name, and not one of them fits", .place.line, .place.column)]
    Ambiguous { place: Place },
    #[error("no memory")]
    Memory,
}

impl From<AllocError> for TypeFault {
    ghost use Rattle.model_types.specs.declared.fault.TypeFault.TheVariants.{Memory};

    ghost from_gives = { λ _ e. e ≡ Memory };

    fn from(_e: AllocError) -> Self {
        TypeFault::Memory
    }
}

impl<T: Drop> From<AllocFailed<T>> for TypeFault {
    ghost use Rattle.model_types.specs.declared.fault.TypeFault.TheVariants.{Memory};

    ghost from_gives = { λ _ e. e ≡ Memory };

    fn from(_e: AllocFailed<T>) -> Self {
        TypeFault::Memory
    }
}
