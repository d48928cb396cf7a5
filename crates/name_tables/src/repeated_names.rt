//! Names that are declared for the second time.

mod fields;
mod links;
mod marks;
mod repeats;
mod stated;
mod tops;
mod words;

pub use crate::repeated_names::repeats::first_repeated;
