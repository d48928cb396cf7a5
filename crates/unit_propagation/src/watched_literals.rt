//! Two watched literals a clause: what became false is followed through the clauses that watch it.

mod back;
mod pending;
mod walk;

pub use crate::watched_literals::back::back_to;
pub use crate::watched_literals::pending::Pending;
pub use crate::watched_literals::walk::propagate_queue;
