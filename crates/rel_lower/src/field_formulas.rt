//! What the formula of a problem says of the fields: their bounds, and the words in these.

pub mod fields;
mod parts;
mod words;
