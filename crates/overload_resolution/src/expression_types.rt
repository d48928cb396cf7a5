//! The bounding types of the expressions of a resolved tree in which no name is shared. Want of memory is also answered where a
//! type would have more lists than a bounding type may have, where no more may be looked at, and where parts lie too deep.

mod brackets;
mod depth;
mod known;
mod names;
mod parts;

pub use crate::expression_types::brackets::brackets_type;
pub use crate::expression_types::known::{KeptType, Known};
pub use crate::expression_types::parts::{type_of, types_of};
