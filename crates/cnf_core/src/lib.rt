//! Literals, clauses, formulas in clause form, and valuations.
#![tactic(auto)]

mod clause;
mod cnf;
mod literal;
mod valuation;

pub use crate::clause::Clause;
pub use crate::cnf::Cnf;
pub use crate::literal::Lit;
pub use crate::valuation::Valuation;
