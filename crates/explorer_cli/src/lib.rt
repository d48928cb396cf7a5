//! The top call of the program: it does what the words say. It reads a script, runs its sessions side by side and writes the
//! replies, where lists may be told by classes of renamings, or gives the commands on which they are to crews, or decides its models'
//! assertions, or finds facts that can't all be true, or makes a script, runs that and writes the sums of it, or reads a proof text and
//! checks it.
#![tactic(auto)]

mod answer;
mod classed_sessions;
mod command;
mod crew_command;
pub mod crew_laws;
mod crew_texts;
mod keys;
pub mod laws;
mod load_command;
mod reports;
mod scripts;
mod sessions;
mod tallies;
mod top_call;
pub mod worker_laws;

pub use crate::top_call::explore;
pub use explorer_run::{Gate, OpenGate, StepCount};
