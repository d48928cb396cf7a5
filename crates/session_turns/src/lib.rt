//! Sessions over the hub that they share. A step imports the key's pool before its search, shares the search's free steps, and is
//! recorded before the session takes its reply in; `all` does so for each scenario.
#![tactic(auto)]

mod commands;
mod opening;
mod serving;
mod settling;
mod sharing;
mod showing;
mod steps;

pub use crate::commands::command;
pub use crate::opening::open_session;
pub use crate::serving::serve_session;
pub use session_state::search_rounds::StepCount;
