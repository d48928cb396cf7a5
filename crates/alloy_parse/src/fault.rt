// What is wrong with a list of tokens.
ghost use Rattle.std.specs.Prelude.{◌≡◌};

use alloy_lex::{Place, Text};
use std::alloc::AllocError;
use thiserror::Error;

/// Why tokens are no model: the fault with the earliest place, or no memory for the tree.
#[derive(Debug, Drop, Error)]
pub enum ParseFault {
    /// A token that no model has there.
    #[error("{}:{}: no model goes on so", .place.line, .place.column)]
    Unexpected { place: Place },
    /// A model goes on here.
    #[error("{}:{}: the text ends too early", .place.line, .place.column)]
    EndOfText { place: Place },
    /// A word or a form that the language refuses.
    #[error("{}:{}: `{}` is not supported", .place.line, .place.column, .word.text())]
    Unsupported { place: Place, word: Text },
    /// A token under more than 200 constructs.
    #[error("{}:{}: more than 200 nested constructs", .place.line, .place.column)]
    TooDeep { place: Place },
    #[error("no memory")]
    Memory,
}

impl From<AllocError> for ParseFault {
    ghost use Rattle.alloy_parse.specs.declared.fault.ParseFault.TheVariants.{Memory};

    ghost from_gives = { λ _ e. e ≡ Memory };

    fn from(_e: AllocError) -> Self {
        ParseFault::Memory
    }
}
