//! Symmetric problems of a set of atoms and any arrows among them, and formulas about both, for tests.

mod failure;
mod formulas;
mod problems;

pub use crate::sample_links::formulas::{
    all_turned, arrows_of_the_set, each_leads_on, fewer_arrows, no_cycle, one_leads_on,
};
pub use crate::sample_links::problems::links;
