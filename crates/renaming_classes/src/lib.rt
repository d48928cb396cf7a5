//! Classes of scenarios that are renamings of each other: the least member of a scenario's class, and the least members of the
//! classes of a list. How many renamings a problem has.
#![tactic(auto)]

mod counts;
pub mod laws;
mod least_members;
mod orbits;
mod placing;

pub use crate::counts::renamings;
pub use crate::least_members::{classes, least};
