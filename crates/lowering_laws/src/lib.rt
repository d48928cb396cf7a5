//! Laws of what lowering makes of a model: the values of expressions lie in their bounding types, and an ordering orders the atoms of
//! its signature. The facts of orderings say no more than that in the problems of a text, and a call of one of their names becomes what
//! it stands for in such an order.
#![tactic(auto)]

pub mod bounding_types;
pub mod ordered_texts;
pub mod orders;
pub mod plain_names;
