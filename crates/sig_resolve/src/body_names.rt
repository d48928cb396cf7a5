//! The names of bodies tied to their declarations: expressions, formulas and parameters become phrases, or the first fault of
//! their names is told.

mod headers;
mod locals;
mod parts;
mod signs;

pub use crate::body_names::headers::parameters;
pub use crate::body_names::locals::leave_until;
pub use crate::body_names::parts::{expression, formulas};
