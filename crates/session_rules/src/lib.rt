//! The session machine, which says which reply a step may have and what state it leaves; what proofs of ends prove, and the
//! work that a search does; transcripts. The types of replies, of proofs, and of what sessions are asked for and answered.
#![tactic(auto)]

mod answers;
mod end_proof;
pub mod laws;
mod lists;
mod script;

pub use crate::answers::{Refusal, Reply, WorkDone};
pub use crate::end_proof::{EndProof, ProofKind};
pub use crate::lists::{CellNumbers, Parts, Replies, Scenarios};
pub use crate::script::{SessionScript, Transcript};
pub use session_words::{AtomName, AtomNames, Command, Commands, Step};
