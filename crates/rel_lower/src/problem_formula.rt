//! The formula of a problem: what is said of signatures and fields, by facts, and by the command.

mod commands;
mod facts;
mod whole;

pub use crate::problem_formula::whole::formula_of;
