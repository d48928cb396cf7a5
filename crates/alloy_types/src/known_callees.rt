//! What is declared in a resolved model: its fields with their types, and its predicates and functions with the arities of
//! their parameters, what a call is, and the bodies in which no name is shared. What is called is known before its callers, and the
//! type of a function without parameters is kept.

mod callee;
mod fields;
mod groups;
mod kept;
mod whole;

pub use crate::known_callees::groups::{Group, groups_in};
pub use crate::known_callees::whole::declared;
