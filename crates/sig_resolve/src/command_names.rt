//! What is wrong with the names of commands: the first name that stands for nothing that it may run or check, or for a
//! predicate with a parameter that need not be a single atom.

mod arrows;
mod faults;
mod predicates;

pub use crate::command_names::faults::first_fault;
