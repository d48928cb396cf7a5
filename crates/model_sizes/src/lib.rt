//! How many places each top-level signature of a resolved tree has under a command.
#![tactic(auto)]

pub mod laws;
mod size;
pub mod sizes;
mod tables;

pub use crate::size::{Size, Sizes};
