//! The problem of a model, a command and some facts, or the first reason why there is none. The modules make its
//! relations with their bounds, and its formula, of signatures, of fields, of facts and of the command.
#![tactic(auto)]

mod commands;
pub mod field_bounds;
pub mod field_formulas;
pub mod laws;
pub mod problem_formula;
pub mod relation_bounds;
mod relations;
pub mod signature_formulas;
mod whole;

pub use crate::whole::{lower, lower_with};
