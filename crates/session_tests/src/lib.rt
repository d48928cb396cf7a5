//! Tests of sessions, from searches to replies and the texts of them. They stand on small problems, whose answers were worked
//! out by hand.
#![tactic(auto)]

#[cfg(test)]
mod known_facts;
#[cfg(test)]
mod large_sets;
#[cfg(test)]
mod of_decision;
#[cfg(test)]
mod of_fact_sets;
#[cfg(test)]
mod of_proof_lines;
#[cfg(test)]
mod of_script_text;
#[cfg(test)]
mod of_search_rounds;
#[cfg(test)]
mod of_session_search;
#[cfg(test)]
mod of_session_store;
#[cfg(test)]
mod of_tuple_names;
