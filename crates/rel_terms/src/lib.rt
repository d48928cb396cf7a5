//! The number of terms of a problem, by which the nodes of its circuit are counted.
#![tactic(auto)]

mod expression;
mod formula;
pub mod laws;
mod operators;
mod pairs;
mod tally;

pub use crate::formula::terms;
pub use crate::tally::MOST_TERMS;
