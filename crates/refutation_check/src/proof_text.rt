// Proof texts: a formula and a log as lines of words.
mod fault;
mod line;
mod reading;
mod word;
mod writing;

pub use fault::ProofFault;
pub use reading::{MOST_BYTES, read_proof};
pub use writing::write_proof;
