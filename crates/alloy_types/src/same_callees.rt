//! Predicates and functions are known and settled alike by declarations that say the same, but for the order of the lists in
//! their types.

pub mod laws;
