//! The words of the command line.
#![tactic(auto)]

mod reading;

pub use crate::reading::{
    Command, DEFAULT_BUDGET, DEFAULT_WORKERS, command_of, words_say_one_command,
};
