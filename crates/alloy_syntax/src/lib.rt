//! The tree of a model, the terminals of the grammar, what reading a list of tokens means, and how single tokens are read.
#![tactic(auto)]

mod class;
pub mod cursor;
pub mod laws;
pub mod parse_stop;
mod parser_token;
pub mod reading;
pub mod tree;

pub use crate::class::{Class, class_of, is_class};
pub use crate::parser_token::ParserToken;
