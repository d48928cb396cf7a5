//! Tests of clauses, of the solver and its parts, of the checker of its proofs, and of searches over small problems.
#![tactic(auto)]

#[cfg(test)]
mod clauses;
#[cfg(test)]
mod formulas;
#[cfg(test)]
mod of_activity_order;
#[cfg(test)]
mod of_assignment_trail;
#[cfg(test)]
mod of_augmenter;
#[cfg(test)]
mod of_clause_store;
#[cfg(test)]
mod of_cnf_core;
#[cfg(test)]
mod of_kept_search;
#[cfg(test)]
mod of_local_clauses;
#[cfg(test)]
mod of_minimiser;
#[cfg(test)]
mod of_proof_text;
#[cfg(test)]
mod of_refutation_check;
#[cfg(test)]
mod of_sat_core;
#[cfg(test)]
mod of_sat_trail;
#[cfg(test)]
mod of_step_count;
#[cfg(test)]
mod of_watch_lists;
#[cfg(test)]
mod of_watched_literals;
#[cfg(test)]
mod pairs_of_sets;
