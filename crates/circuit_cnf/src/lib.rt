//! The clause form of a circuit: its gates as clauses, and a clause that asks for its output.
#![tactic(auto)]

mod clauses;
mod encoding;
mod gates;
pub mod laws;
mod marks;

pub use crate::clauses::{MOST_SIZE, clauses_of};
