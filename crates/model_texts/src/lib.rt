//! What the text of a model is: a model with names and types, or no model and why. The module `fault_words` has what is told of
//! a fault of a model or of a command.
#![tactic(auto)]

pub mod fault_words;
pub mod typed_texts;
