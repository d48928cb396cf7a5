//! The order in which a solver decides variables: those that wait, by their activity.

mod heap;
mod order;

pub use crate::activity_order::order::ActivityOrder;
