//! The search for a valuation of clauses, with a log of what was learnt on the way: a valuation, a refutation, or a
//! spent budget. The module `search_limits` has the laws of how many steps a search can take.
#![tactic(auto)]

mod deciding;
mod kept;
mod lent;
mod locals;
mod marked_log;
mod search;
pub mod search_limits;
mod step_count;
mod trimmed;

pub use crate::kept::KeptSearch;
pub use crate::lent::{Ending, solve_on};
pub use crate::search::{Answer, solve, solve_from, solve_towards};
pub use crate::step_count::StepCount;
pub use sat_trail::{SavedPhases, Trail};
