//! The cells that an instance can be given: those outside it which some instance has together with it.
#![tactic(auto)]

mod answer;
mod cells;
mod offering;
mod raising;
mod search;
mod tried;

pub use crate::answer::Offers;
pub use crate::offering::offers;
pub use crate::search::{Sought, seek};
