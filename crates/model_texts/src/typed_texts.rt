//! What the text of a model is: a model with names and types, or no model and why.

pub mod laws;
mod reading;

pub use crate::typed_texts::reading::{ModelText, read_model};
