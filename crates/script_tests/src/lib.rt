//! Tests of the words and rules of sessions: the format of scripts, transcripts and their replies, and texts of proofs; and of the
//! sources and sinks that these come from and go to.
#![tactic(auto)]

#[cfg(test)]
mod numbers_of_replies;
#[cfg(test)]
mod of_outside_io;
#[cfg(test)]
mod of_proof_command;
#[cfg(test)]
mod of_script_format;
#[cfg(test)]
mod of_session_rules;
#[cfg(test)]
mod of_session_words;
#[cfg(test)]
mod told_commands;
