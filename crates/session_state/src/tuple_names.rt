//! What the names of a relation and of atoms stand for: a tuple that the relation may have, and its cell.

mod names;
mod naming;

pub use crate::tuple_names::naming::{Named, what_is_named};
