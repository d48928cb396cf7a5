//! Clauses which say that swaps of two atoms make no scenario earlier.

mod cells;
mod comparison;
mod swaps;

pub use crate::swap_clauses::swaps::{swap_clauses, swap_clauses_of};
