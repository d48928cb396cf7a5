//! From the text of a model to its tokens.
#![tactic(auto)]

mod front;
pub mod laws;
mod lexing;
mod spelling;
mod token;

pub use crate::lexing::lex;
pub use crate::token::{LexFault, Place, Spelling, Text, Token, TokenKind};
