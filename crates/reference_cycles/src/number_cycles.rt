//! Numbers that lead back to themselves, where each number leads to those of its row (predicates that call themselves,
//! signatures that are their own parents), and orders in which the row of each number stands before it.

mod components;
mod first;
mod heights;
mod ordered;
mod walk;

pub use crate::number_cycles::first::first_cyclic;
pub use crate::number_cycles::ordered::order_of;
