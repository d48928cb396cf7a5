//! The names that a model declares, in tables.

mod declaring;
mod room;

pub use crate::global_names::declaring::global_names;
