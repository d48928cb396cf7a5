//! Translations: the clauses that a problem's instances satisfy, and those of the swaps of neighbouring atoms. The
//! module `swap_clauses` makes the clauses which say that a swap makes no scenario earlier.
#![tactic(auto)]

pub mod swap_clauses;
mod swaps;
mod translation;

pub use crate::translation::Translation;
