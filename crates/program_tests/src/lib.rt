//! Tests of the program: its words, and the answers of its top call to whole scripts.
#![tactic(auto)]

#[cfg(test)]
mod of_assertions;
#[cfg(test)]
mod of_classes;
#[cfg(test)]
mod of_command_words;
#[cfg(test)]
mod of_crew;
#[cfg(test)]
mod of_explorer_cli;
#[cfg(test)]
mod of_facts;
#[cfg(test)]
mod of_hostile_use;
#[cfg(test)]
mod of_load;
#[cfg(test)]
mod of_models;
#[cfg(test)]
mod of_orderings;
#[cfg(test)]
mod of_proofs;
#[cfg(test)]
mod of_sessions;
#[cfg(test)]
mod of_words;
#[cfg(test)]
mod of_workers;
#[cfg(test)]
mod running;
