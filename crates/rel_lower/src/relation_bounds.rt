//! The relations of signatures, with the tuples that they have at least and at most.

pub mod names;
pub mod places;
pub mod signatures;
