//! What the paragraphs of a model say, with every name tied to its declaration: predicates, functions, facts, assertions and
//! commands.

mod adding;
mod callees;
mod commands;

pub use crate::paragraph_bodies::adding::{Said, bodies};
