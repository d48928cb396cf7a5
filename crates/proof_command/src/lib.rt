//! The command `check`: a proof text is read and checked, and the verdict is written.
#![tactic(auto)]

mod answer;
mod command;
mod laws;

pub use crate::answer::{Answer, answer_to};
pub use crate::command::check_proof;
pub use crate::laws::one_answer;
