//! A lock that passes take in turn: one holds the value at a time, its entries begin with all that its pass had seen, and
//! the entries under a pass's number are that pass's own. `Gate` is where a worker stops before a command.
#![tactic(auto)]

mod gate;
mod held;
mod kept;
mod laws;
mod lending;
mod lock;
mod opening;
mod order;
mod pass;
mod view;

pub use crate::gate::{Gate, OpenGate};
pub use crate::held::Held;
pub use crate::kept::Kept;
pub use crate::laws::steps_keep_the_rule;
pub use crate::lock::Turns;
pub use crate::opening::turns;
pub use crate::pass::Pass;
pub use crate::view::{LastJoin, View};
