//! Descents from an instance to a minimal scenario.
#![tactic(auto)]

mod descent;
mod lowering;

pub use crate::descent::{Down, minimise, minimise_from, minimise_on};
