//! Tests of what bodies, relations and problems become: instances of small models from texts, counted by hand, bodies that ask for more
//! than there is room for, and bounds. Tests of `renaming_classes` stand beside them: how many classes the graphs of some kinds have is
//! known.
#![tactic(auto)]

#[cfg(test)]
mod counting;
#[cfg(test)]
mod lowered;
#[cfg(test)]
mod of_calls;
#[cfg(test)]
mod of_commands;
#[cfg(test)]
mod of_facts;
#[cfg(test)]
mod of_fields;
#[cfg(test)]
mod of_formulas;
#[cfg(test)]
mod of_large_bodies;
#[cfg(test)]
mod of_levels;
#[cfg(test)]
mod of_orderings;
#[cfg(test)]
mod of_relation_bounds;
#[cfg(test)]
mod of_relations;
#[cfg(test)]
mod of_renaming_classes;
#[cfg(test)]
mod of_signatures;
#[cfg(test)]
mod of_three_variables;
#[cfg(test)]
mod of_variables;
#[cfg(test)]
mod one_relation;
