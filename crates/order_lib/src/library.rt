//! What an ordering declares.

pub mod fields;
pub mod formulas;
pub mod functions;
pub mod names;
pub mod nodes;
pub mod paragraphs;
pub mod predicates;
