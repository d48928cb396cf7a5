//! Which faults a text of the grammar may have, which no text has, and where they stand: laws over the definition of reading and
//! the grammar.

pub mod laws;
