//! The sorts, arities and bounding types of a resolved tree, and which field a shared name is, as definitions. The
//! modules answer what operators want of their operands and make of them, and what they make of bounding types.
#![tactic(auto)]

pub mod bounding_types;
mod fault;
pub mod laws;
pub mod part_sorts;

pub use crate::fault::TypeFault;
