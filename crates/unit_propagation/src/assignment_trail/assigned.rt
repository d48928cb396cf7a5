// A literal that is true, with its cause.
use cnf_core::Lit;

/// A literal that is true, its level, and the number of the clause that forced it; a decision has none.
#[derive(Clone, Copy, Debug, PartialEq, Eq)]
pub struct Assigned {
    pub lit: Lit,
    pub level: u32,
    pub reason: Option<u32>,
}
