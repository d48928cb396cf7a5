//! What a session keeps from one step to the next: the state of the session machine, and the copies of shown scenarios that its
//! searches found.

mod floors;
mod store;

pub use crate::session_store::store::SessionStore;
