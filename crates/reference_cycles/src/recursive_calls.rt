//! Predicates and functions that call themselves.

mod calls;
mod recursion;

pub use crate::recursive_calls::recursion::{first_recursive, rows};
