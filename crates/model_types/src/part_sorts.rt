//! What the parts of a resolved tree are, what each operator wants of its operands, and over which top-level signature each
//! signature stands.

pub mod arities;
pub mod bounds;
pub mod comparisons;
pub mod kinds;
pub mod places;
pub mod tables;

pub use crate::part_sorts::kinds::Kind;
