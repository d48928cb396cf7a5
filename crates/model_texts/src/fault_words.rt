//! What is told of a fault of a model, behind the model's name: its place and its word, or a command's number and its word.

mod commands;
mod names;
mod orders;
mod placed;
mod texts;
mod types;

pub use crate::fault_words::commands::command_words;
pub use crate::fault_words::names::{name_kind, name_words};
pub use crate::fault_words::orders::order_words;
pub use crate::fault_words::texts::{lex_words, parse_words};
pub use crate::fault_words::types::type_words;
