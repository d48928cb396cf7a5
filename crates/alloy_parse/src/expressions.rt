//! Expressions, formulas and numbers, read from tokens.

mod arrows;
mod binders;
mod chains;
pub mod levels;
pub mod nodes;
mod paths;
pub mod rules;
pub mod signs;
mod variables;
