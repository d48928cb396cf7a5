//! What is printed of the proofs that sessions keep: a formula and a log that refutes it, whose lines the command `check`
//! accepts.

mod formula;
pub mod laws;
mod local;
mod proof;
mod steps;

pub use crate::proof_lines::proof::{ProofText, proof_of, text_of_proof};
