//! The models of a script, and the problems on which its sessions are.
#![tactic(auto)]

mod commands;
pub mod laws;
mod models;
mod numbers;
mod purposes;

pub use crate::commands::{ServedCommand, problem_of};
pub use crate::models::{Models, model_line, read_models};
pub use crate::purposes::Purpose;
