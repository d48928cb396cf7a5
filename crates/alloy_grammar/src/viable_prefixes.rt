//! What stands before a fault goes on to a text: laws over the definition of reading and the grammar.

pub mod laws;
