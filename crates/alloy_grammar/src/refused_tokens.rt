//! Where a token is refused, no text goes on; and nothing is at fault before the first fault: laws over the definition of reading
//! and the grammar.

pub mod laws;
