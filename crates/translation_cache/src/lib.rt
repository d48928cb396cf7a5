//! The translations that were published, by the keys of their problems.
#![tactic(auto)]

mod cache;

pub use crate::cache::Cache;
