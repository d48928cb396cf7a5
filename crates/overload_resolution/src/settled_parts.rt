//! Parts of a resolved tree with every shared name settled: the tree in which each of them is one field, and what the part is;
//! or the first fault. Want of memory is also answered where a bounding type that a shared name asks for would have too many
//! lists.

mod building;
mod settling;

pub use crate::settled_parts::settling::{domains, formulas, part};
