//! The relations of a problem: those of fields with their bounds, behind those of signatures, as far as a problem may have so
//! many relations and cells.

pub mod fields;
pub mod laws;
mod products;
pub mod relations;
mod types;
