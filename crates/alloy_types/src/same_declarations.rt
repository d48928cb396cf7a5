//! Declarations that say the same, but for the order of the lists in their types, settle parts alike.

pub mod laws;
