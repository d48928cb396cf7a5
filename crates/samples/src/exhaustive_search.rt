//! What is due at a floor, whether some instance contains it, and what a scenario can be given, found by trying all sets of
//! cells of a problem that has few.

mod due;
mod instances;
mod minimal;
mod offers;
mod subsets;

pub use crate::exhaustive_search::due::{all_due, all_due_at};
pub use crate::exhaustive_search::offers::{all_offers, has_instance_above};
