//! What the translation of a problem to clauses means: when it stands for its problem, and what the clauses of one
//! search say over it. The module `local_clauses` makes these: that cells are there, that some are not, and those of a
//! descent.
#![tactic(auto)]

pub mod laws;
pub mod local_clauses;
