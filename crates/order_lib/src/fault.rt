// What is wrong with an ordering.
ghost use Rattle.std.specs.Prelude.{◌≡◌};

use alloy_lex::Place;
use std::alloc::{AllocError, AllocFailed};
use thiserror::Error;

/// Why the orderings of a model are refused: the first fault, or no memory.
#[derive(Clone, Copy, Debug, PartialEq, Eq, Error)]
pub enum OrderFault {
    /// A name in brackets that is no signature of the model.
    #[error("{}:{}: the name is no signature", .place.line, .place.column)]
    Unknown { place: Place },
    /// A signature that has a parent, or is `abstract`, `one` or `lone`.
    #[error("{}:{}: the signature is abstract, has a parent, or one atom at most", .place.line, .place.column)]
    NotPlain { place: Place },
    /// A name behind `as` that stands there for the second time.
    #[error("{}:{}: the name stands here for the second time", .place.line, .place.column)]
    Twice { place: Place },
    #[error("no memory")]
    Memory,
}

impl From<AllocError> for OrderFault {
    ghost use Rattle.order_lib.specs.declared.fault.OrderFault.TheVariants.{Memory};

    ghost from_gives = { λ _ e. e ≡ Memory };

    fn from(_e: AllocError) -> Self {
        OrderFault::Memory
    }
}

impl<T: Drop> From<AllocFailed<T>> for OrderFault {
    ghost use Rattle.order_lib.specs.declared.fault.OrderFault.TheVariants.{Memory};

    ghost from_gives = { λ _ e. e ≡ Memory };

    fn from(_e: AllocFailed<T>) -> Self {
        OrderFault::Memory
    }
}
