//! The signatures and the fields of a model, with the names of parents and bounds tied to signatures.

mod bounds;
mod fields;
mod paragraphs;
mod room;
mod signatures;

pub use crate::signature_names::paragraphs::{Declared, declarations};
