//! Names: the tree of a model becomes one in which every name is tied to its declaration, or the first fault of its
//! names is told. The modules do so for bodies and for paragraphs, and look at the names of commands.
#![tactic(auto)]

pub mod body_names;
pub mod command_names;
mod fact_names;
mod naming;
pub mod paragraph_bodies;
mod parts;

pub use crate::naming::resolve;
