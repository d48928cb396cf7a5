//! What a session does for the next scenario at a floor: rounds of a search for what is left and a descent from what it finds,
//! until a scenario is due and new, or nothing is left, or the budget is spent.

mod comparing;
mod descent;
mod due;
mod going;
mod held;
mod locals;
mod next;
mod novel;
mod round;
mod trails;

pub use crate::search_rounds::held::HeldSearch;
pub use crate::search_rounds::locals::locals_of;
pub use crate::search_rounds::next::{Found, NextAt, joined, next_at, proof_of};
pub use crate::search_rounds::round::RoundEnd;
pub use crate::search_rounds::trails::KeptTrails;
pub use sat_core::{SavedPhases, StepCount};
