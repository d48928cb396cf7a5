//! Where names of several fields stand in a part of a resolved tree, and whether arguments fit their parameters.

pub mod asking;
mod headers;
pub mod walk;

pub use crate::shared_names::headers::{Header, call_kind};
