//! What a model with orderings is short for: `expand` makes each ordered signature exact in every command, and puts what an
//! ordering declares behind the paragraphs of the text. Or it tells the first fault of an ordering.
#![tactic(auto)]

mod expansion;
mod fault;
mod library;
mod refusals;
mod scopes;

pub use crate::expansion::expand;
pub use crate::fault::OrderFault;
