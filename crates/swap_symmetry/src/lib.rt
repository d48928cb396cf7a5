//! The order of scenarios, and scenarios that no swap of two neighbouring atoms makes earlier.
#![tactic(auto)]

mod images;
pub mod laws;
mod order;
mod pairs;
mod settled;
mod settling;

pub use crate::images::SwapImages;
pub use crate::order::earlier;
pub use crate::pairs::neighbours;
pub use crate::settled::{is_settled, is_settled_beside, is_settled_by};
pub use crate::settling::{settle, settle_beside, settle_by};
