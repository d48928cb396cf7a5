//! How much work a search for an answer can be: laws that bound the units of a step by the numbers of cells and of variables, and
//! the variables of a translation by its cells, terms and swaps. So a budget that is large enough is never spent.
#![tactic(auto)]

mod kept;
pub mod laws;
mod proposals;

pub use crate::kept::{parts_are_logs, translations_are_formulas};
pub use crate::proposals::enough_is_not_proposed_as_spent;
