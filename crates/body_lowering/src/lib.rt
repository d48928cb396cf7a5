//! Bodies of a model lowered to the kernel: each part with its names, variables, calls and values as kernel expressions
//! and formulas. The module `kernel_parts` has what each operator, word and binder makes of these.
#![tactic(auto)]

mod binder_rules;
pub mod bodies;
mod chain_rules;
mod charges;
pub mod kernel_parts;
mod locals;
mod names;
mod operations;
pub mod parts;
mod path_rules;
mod quantifiers;
mod room;
mod rules;

pub use crate::locals::Local;
pub use crate::room::{Depth, Room};
