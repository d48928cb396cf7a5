//! Which of several fields of one name is meant, by the top-level signatures that fit in its place.

mod fields;
mod found;
mod seen;
pub mod tops;

pub use crate::shared_fields::fields::Fields;
pub use crate::shared_fields::tops::Tops;
