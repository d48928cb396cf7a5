//! The sorts and arities of a resolved model: the first fault in the order of its paragraphs, or the model in which
//! every shared name is settled. The modules have what is known of predicates and functions, those before their
//! callers, and laws that the order of the lists in types changes nothing.
#![tactic(auto)]

pub mod callee_headers;
mod callees;
mod check;
mod commands;
mod fields;
pub mod known_callees;
mod outcomes;
mod paragraphs;
mod parts;
pub mod same_callees;
pub mod same_declarations;
mod settled;

pub use crate::check::check_types;
