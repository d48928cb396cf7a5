//! Texts of models that are to be measured, each of a kind and as large as it is asked for, and the words for how far one is brought.
#![tactic(auto)]

mod shapes;
mod stages;
mod texts;

pub use crate::shapes::{SHAPES, Shape, shape_of};
pub use crate::stages::{Stage, stage_of};
pub use crate::texts::text_of;
