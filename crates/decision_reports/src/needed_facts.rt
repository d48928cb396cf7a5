//! Which facts can't all be true under a command: none, or an irreducible list of them.

mod blocks;
mod needed;
mod numbers;
mod singles;
mod trials;

pub use crate::needed_facts::needed::{FactSet, facts_of};
pub use crate::needed_facts::trials::{Core, SpentFacts};
