//! What a name stands for, found by tables: each word has a number, and for each number the places are kept where it is
//! declared, so that no list of names is searched. The modules have the names, signatures and fields that a model
//! declares, names that it declares twice, and signatures that are their own parents.
#![tactic(auto)]

mod cover;
mod firsts;
pub mod global_names;
mod locals;
mod names;
pub mod parent_cycles;
pub mod repeated_names;
pub mod signature_names;
mod words;

pub use crate::names::{Header, MOST_FIELDS, Names};
