//! Bounding types: sets of lists of top-level signatures, and what each operator makes of them. Want of memory is also
//! answered where a type would have more than `MOST_LISTS` lists, and where no more lists may be looked at.

mod closure;
mod kept;
pub mod operators;
mod products;
mod rows;
mod work;

pub use crate::bounding_types::kept::{BoundingType, MOST_LISTS};
pub use crate::bounding_types::work::Work;
