//! A trail over clauses: propagation with two watched literals a clause, and learning from a conflict.
#![tactic(auto)]

mod deciding;
mod filling;
mod highest;
mod learning;
mod levels;
mod phases;
mod rounds;
mod settling;
mod trail;

pub use crate::learning::learn;
pub use crate::phases::SavedPhases;
pub use crate::trail::{Propagated, Trail};
pub use unit_propagation::assignment_trail::Assigned;
