//! The journal of what sessions did to what they share, and when it is legal.

mod event;
pub mod laws;

pub use crate::journal_rules::event::{Entry, Event};
