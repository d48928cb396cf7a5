//! How many steps a search can take: no more than there are clauses over its variables.

pub mod laws;
