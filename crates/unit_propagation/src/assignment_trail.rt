//! The literals that are true, in the order in which they became so, with their levels and reasons.

mod assigned;
mod assignment;

pub use crate::assignment_trail::assigned::Assigned;
pub use crate::assignment_trail::assignment::Assignment;
