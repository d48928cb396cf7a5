//! Clauses one after another in a flat store.

mod code;
mod store;

pub use crate::clause_store::code::{code_of, literal_of};
pub use crate::clause_store::store::Store;
