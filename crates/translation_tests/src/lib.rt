//! Tests of what is translated, and of what becomes of it: tuples, formulas, problems and their terms, and swaps of atoms. Behind them
//! come circuits, matrices of gates, their clauses and those of swaps, and whole translations.
#![tactic(auto)]

#[cfg(test)]
mod gates;
#[cfg(test)]
mod of_bool_circuit;
#[cfg(test)]
mod of_bool_matrix;
#[cfg(test)]
mod of_circuit_cnf;
#[cfg(test)]
mod of_evaluation;
#[cfg(test)]
mod of_rel_formula;
#[cfg(test)]
mod of_rel_terms;
#[cfg(test)]
mod of_rel_translate;
#[cfg(test)]
mod of_swap_clauses;
#[cfg(test)]
mod of_swap_symmetry;
#[cfg(test)]
mod of_translation;
#[cfg(test)]
mod of_translation_cache;
#[cfg(test)]
mod of_tuple_core;
#[cfg(test)]
mod tables;
#[cfg(test)]
mod valuations;
