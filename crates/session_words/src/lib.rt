//! The words of sessions: the steps that a session is asked for, and the commands of a script, which ask for them.
#![tactic(auto)]

mod atom_names;
mod commands;
mod steps;

pub use crate::atom_names::{AtomName, AtomNames};
pub use crate::commands::{Command, Commands};
pub use crate::steps::Step;
