//! A session whose steps are answered by searches, each with what stands behind it.

mod answer;
mod asking;
mod augmenting;
mod listing;
mod offering;
mod plain;
mod session;

pub use crate::session_search::answer::Proposal;
pub use crate::session_search::listing::in_order;
pub use crate::session_search::plain::needs_translation;
pub use crate::session_search::session::Session;
