//! What is known of predicates and functions, by those that they call.

pub mod laws;
