//! Texts that the program writes: that of a session, which is its name and the lines of its replies, and the lines that
//! refuse a script; and the lines of scenarios, for other texts. The module `proof_lines` has what is printed of the proofs
//! that sessions keep.
#![tactic(auto)]

mod answer_lines;
mod fault_lines;
pub mod laws;
mod limits;
mod listed_lines;
mod numbers;
mod offer_lines;
pub mod proof_lines;
mod refusal_lines;
mod relation_lines;
mod scenario_lines;
mod sessions;

pub use crate::fault_lines::{fault_line, script_line};
pub use crate::limits::{MOST_OUTPUT, fits_output};
pub use crate::listed_lines::{push_all, push_numbered};
pub use crate::numbers::push_number_line;
pub use crate::scenario_lines::push_scenario;
pub use crate::sessions::{push_reply_at, session_text};
