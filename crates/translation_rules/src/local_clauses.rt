//! The clauses that hold in one search alone: that cells are there, that some are not, and those of a descent.

mod clauses;
mod descent;

pub use crate::local_clauses::clauses::{absence_in, units_of};
pub use crate::local_clauses::descent::descent_locals;
