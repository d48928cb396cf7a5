//! What the problem of a typed model and a command is: what each part of a body becomes in the kernel, the bounds of the
//! relations, the formula, and why there may be no problem.
#![tactic(auto)]

mod fault;
pub mod laws;

pub use crate::fault::{LowerFault, LowerStop, TooLarge};
