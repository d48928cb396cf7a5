//! Circuits of boolean gates over numbered inputs, which share equal gates and fold trivial ones.
#![tactic(auto)]

mod circuit;
mod eval;
mod fold;
mod shape;

pub use crate::circuit::{Circuit, MOST_NODES};
pub use crate::shape::{Node, Shape};
