//! Atoms, tuples of one to three atoms, sorted sets of tuples with the relational operators, and names.
#![tactic(auto)]

mod atom;
pub mod laws;
mod name;
mod operator;
mod tuple;
mod tuple_set;

pub use crate::atom::Atom;
pub use crate::name::Name;
pub use crate::operator::{Operator, UnaryOperator};
pub use crate::tuple::Tuple;
pub use crate::tuple_set::TupleSet;
