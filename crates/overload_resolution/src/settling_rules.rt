//! How a part is settled operand by operand, and when two are settled alike.

pub mod laws;
