//! From tokens to the tree of a model, or the fault at the place where reading stops. The module `expressions` reads
//! what stands inside paragraphs: expressions, formulas, declarations and numbers.
#![tactic(auto)]

mod answer;
mod bounds;
pub mod expressions;
mod fault;
mod paragraphs;

pub use crate::answer::parse;
pub use crate::fault::ParseFault;
