//! What the parts of a model stand in: what is declared, and local names with their arities and types; and the types of parts,
//! where these are asked for.

pub mod names;
mod scope;
mod setting;
pub mod types;

pub use crate::typed_scopes::scope::{Locals, Scope};
pub use crate::typed_scopes::setting::Setting;
