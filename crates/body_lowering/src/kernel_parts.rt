//! What each operator, word and binder of a model makes of kernel expressions and formulas.

pub mod binders;
pub mod comparisons;
pub mod connectives;
pub mod counts;
pub mod expressions;
pub mod operators;
mod part;
pub mod shifts;

pub use crate::kernel_parts::part::Part;
