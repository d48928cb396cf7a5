//! The resolved tree of a model, in which every name is tied to its declaration, and what is wrong with names.
#![tactic(auto)]

mod fault;
pub mod laws;
pub mod named;
pub mod phrase;
mod standing;

pub use crate::fault::NameFault;
pub use crate::named::Named;
pub use crate::standing::Standing;
