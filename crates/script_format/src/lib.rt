//! Scripts: the models and the sessions that a script's bytes say, or the first fault of bytes that say none.
#![tactic(auto)]

mod draft;
mod entries;
mod fault;
mod generated;
mod keys;
pub mod laws;
mod line;
mod names;
mod numbers;
mod reader;
mod script;
mod sessions;
mod tuples;
mod words;

pub use crate::entries::{ModelEntries, ModelEntry, Script, SessionEntries, SessionEntry};
pub use crate::fault::ScriptFault;
pub use crate::generated::generate;
pub use crate::keys::{Key, keys_of};
pub use crate::script::{MOST_BYTES, read_script};
