//! Logs of derived clauses, and the check that a log refutes a formula.
#![tactic(auto)]

mod assumptions;
mod laws;
mod lifting;
mod log;
mod marks;
mod part;
mod proof_text;
mod refutation;
mod sparse;

pub use crate::laws::{
    bytes_say_one_proof, chains_are_renumbered, free_steps_are_accepted,
    lifted_pool_and_log_are_accepted, novel_steps_are_counted, verdicts_stand_under_other_names,
};
pub use crate::lifting::lift;
pub use crate::log::{Hints, Log, Step};
pub use crate::marks::{Sight, look};
pub use crate::part::{LocalClauses, Part};
pub use crate::proof_text::{MOST_BYTES, ProofFault, read_proof, write_proof};
pub use crate::refutation::{Scratch, Verdict, accepted_is_entailed, check};
pub use crate::sparse::verdict_on;
