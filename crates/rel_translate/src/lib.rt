//! The translation of a bounded relational problem into a circuit that is true exactly at its instances.
#![tactic(auto)]

mod comparing;
mod expression;
mod formula;
mod gates;
mod leaves;
mod tables;
mod translate;

pub use crate::translate::{ProblemCircuit, circuit_of};
