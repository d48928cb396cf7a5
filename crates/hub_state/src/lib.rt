//! What sessions share: the translations of problems, the steps of searches that rest on these alone, and the journal
//! of all that was done, which is legal at every moment. The module `journal_rules` says which journals are legal.
#![tactic(auto)]

mod hub;
pub mod journal_rules;
mod kept;
mod new_steps;

pub use crate::hub::Hub;
pub use crate::journal_rules::{Entry, Event};
pub use crate::kept::SeenEntry;
