//! Numbers that lead back to themselves, where each number leads to those of its row, and orders in which the row of
//! each number stands before it. With these the predicates and functions that call themselves are found here.
#![tactic(auto)]

pub mod number_cycles;
pub mod recursive_calls;
