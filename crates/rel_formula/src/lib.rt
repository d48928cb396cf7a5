//! Bounded relational problems: the kernel's expressions and formulas, relations between bounds, scenarios, and the
//! evaluator that says whether a scenario is an instance.
#![tactic(auto)]

mod connectives;
mod evaluate;
mod formula;
mod instance;
pub mod laws;
mod problem;
mod scenario;
mod tables;

pub use crate::connectives::{Comparison, Connective, Quantifier};
pub use crate::formula::{Expression, Formula};
pub use crate::instance::holds;
pub use crate::problem::{Cell, Problem, Relation};
pub use crate::scenario::Scenario;
pub use crate::tables::Tables;
