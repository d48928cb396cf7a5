//! Bytes from outside and to the outside: where a program reads and writes, and how it ends.
//!
//! A [`Source`] means the bytes that are left, a [`Sink`] the bytes that were written, where they tell them. Each
//! has a count of faults that never falls, and answers [`Failed`] only in a call in which that count rose, or stands at its last value.
#![tactic(auto)]

mod counter;
mod memory;
mod sink;
mod source;
mod status;
mod streams;

pub use crate::memory::{MemSink, MemSource};
pub use crate::sink::{Sink, finish, write_all};
pub use crate::source::{Failed, ReadFault, Source, read_all};
pub use crate::status::Status;
pub use crate::streams::{StdSink, StdSource};
