//! Signatures that are their own parents over one or more steps.

mod cycles;
mod graph;

pub use crate::parent_cycles::cycles::first_cycle;
