//! What searches over one translation share: the steps of their logs that rest on its clauses alone, and the pool
//! that keeps them.
#![tactic(auto)]

mod free;
mod laws;
mod pool;
mod renumbering;
mod steps;

pub use crate::free::free_of;
pub use crate::laws::{accepted_hints_name_members, one_length_is_longest};
pub use crate::pool::{MOST_NUMBERS, MOST_STEPS, Pool};
