//! The explorer: sessions over a hub that they share, each on one of several worker threads. Whatever their number and the order of
//! their turns, one journal tells what each session did.
#![tactic(auto)]

mod calls;
mod publishing;
mod seats;
mod sessions;
mod workers;

pub use crate::calls::Explorer;
pub use crate::sessions::{Served, serve_sessions};
pub use hub_lock::{Gate, OpenGate};
pub use session_rules::{SessionScript, Transcript};
pub use session_turns::StepCount;
