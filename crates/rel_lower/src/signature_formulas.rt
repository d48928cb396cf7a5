//! What the formula of a problem says of the signatures.

mod extensions;
mod listings;
pub mod relations;
pub mod signatures;
