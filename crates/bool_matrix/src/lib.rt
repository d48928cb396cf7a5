//! Matrices of circuit nodes: which node says that a tuple is in a relation, with the relational operators.
#![tactic(auto)]

mod adding;
mod boolean;
mod comparing;
mod counter;
mod entry;
mod filters;
mod joins;
mod matrix;
mod operators;
mod undo;
mod walks;

pub use crate::entry::Entry;
pub use crate::matrix::Matrix;
